//! The answers to texts, computed on the definitions. Each function does nothing, and its contract
//! says the law.
ghost use Rattle.ss_preamble.specs.Examples.{NothingIsDeclared, EmptyPreamble, PreambleAlone, NoItem};
ghost use Rattle.ss_preamble.specs.Examples.{EachItemIsRead, OtherWords, ClassesLimit, AttributesLimit};
ghost use Rattle.ss_preamble.specs.Examples.{VariablesLimit, SetsLimit, KeysLimit};

/// A text without a preamble declares nothing.
pub fn nothing_is_declared()
    ensures { NothingIsDeclared }
{}

/// `PREAMBLE END MAIN END` has no items, and MAIN is the first word after it.
pub fn an_empty_preamble()
    ensures { EmptyPreamble }
{}

/// A text of only `PREAMBLE` is refused by P2.
pub fn preamble_alone()
    ensures { PreambleAlone }
{}

/// No statement is an item: P1.
pub fn no_item()
    ensures { NoItem }
{}

/// A preamble that has each item is read as these items.
pub fn each_item_is_read()
    ensures { EachItemIsRead }
{}

/// Words that are dropped, synonyms, AND and commas in lists do not matter.
pub fn other_words_do_not_matter()
    ensures { OtherWords }
{}

/// 64 classes are read, each as often as it may be written; the 65th is refused.
pub fn most_classes()
    ensures { ClassesLimit }
{}

/// 32 attributes of a class are read, over all its items; the 33rd is refused.
pub fn most_attributes()
    ensures { AttributesLimit }
{}

/// 256 variables of the system and the preamble are read; the 257th is refused.
pub fn most_variables()
    ensures { VariablesLimit }
{}

/// 64 sets are read, each as often as it may be written; the 65th is refused.
pub fn most_sets()
    ensures { SetsLimit }
{}

/// Eight keys of each ranking are read; the ninth is refused.
pub fn most_keys()
    ensures { KeysLimit }
{}
