//! Laws on the definitions. Each function does nothing, and its contract says the law.
ghost use Rattle.ss_check.specs.AskedExample.{AskedNamesAreJudged};
ghost use Rattle.ss_check.specs.Asked.{AskedExpressionsAreSound, AskedConditionsAreSound, OwnPlacesHaveNoFault};
ghost use Rattle.ss_check.specs.WrongExample.{SecondNamesAreSaid, FirstWrongUsesAreSaid, WrongItemsAreSaid};
ghost use Rattle.ss_check.specs.WrongExample.{OtherRulesSayNoName};
ghost use Rattle.ss_check.specs.WrongNames.{PlacesNameTheirUse, LocalsNameTheDeclared};
ghost use Rattle.ss_check.specs.FurtherExamples.{SectionsAreDeclaredOnce, OrdersAreGivenOnce};
ghost use Rattle.ss_check.specs.FurtherExamples.{LocalsHaveNamesOfTheirOwn, OrdersNameEvents, ValuesAreNoRoutines};
ghost use Rattle.ss_check.specs.FurtherExamples.{KeysAreOfTheirClass, NoticesHaveAttributesForValues};
ghost use Rattle.ss_check.specs.FurtherExamples.{YieldedAreCounted, FirstNamingIsRefused, AttributesMayChange};
ghost use Rattle.ss_check.specs.FurtherExamples.{EventsStartNoSimulation, SecondDeclarationsAreRefused};
ghost use Rattle.ss_check.specs.NamedTree.{TablesGiveTheText};
ghost use Rattle.ss_check.specs.NamedItems.{TablesGiveTheItems};
ghost use Rattle.ss_check.specs.TableExample.{PreambleHasTables};
ghost use Rattle.ss_check.specs.Examples.{VariablesAreDeclaredOnce, ClassesHaveOneKind, SetsAreDeclaredOnce};
ghost use Rattle.ss_check.specs.Examples.{RoutinesAreDeclaredOnce, ClassesAreNamedUnderHeadings, StatementsNeedClasses};
ghost use Rattle.ss_check.specs.Examples.{NamesAreUsedAsDeclared, SetsHaveOneOwner, SetsHaveOneMemberClass};
ghost use Rattle.ss_check.specs.Examples.{KeysAreAttributes, CountsAgree, EventsHaveAttributesForParameters};
ghost use Rattle.ss_check.specs.Examples.{EventsHaveSections, TargetsMayChange, FieldsHaveValues, ThereIsOneMain};
ghost use Rattle.ss_check.specs.Examples.{PriorityNamesEventsOnce, SimulationStartsInMain, FoundIsAskedBehindFind};
ghost use Rattle.ss_check.specs.Examples.{EarlierStatementCounts, LowerRuleCounts};

/// A variable is declared once, and TIME.V is declared before all.
pub fn variables_are_declared_once()
    ensures { VariablesAreDeclaredOnce }
{}

/// A class is under one kind of heading, and a permanent class c has N.c.
pub fn classes_have_one_kind()
    ensures { ClassesHaveOneKind }
{}

/// The kept attributes of a set are declared with it, and it has one discipline.
pub fn sets_are_declared_once()
    ensures { SetsAreDeclaredOnce }
{}

/// A routine is declared once, and its parameters have names of their own.
pub fn routines_are_declared_once()
    ensures { RoutinesAreDeclaredOnce }
{}

/// EVERY is under a heading, and BREAK and EXTERNAL name event classes.
pub fn classes_are_named_under_headings()
    ensures { ClassesAreNamedUnderHeadings }
{}

/// CREATE and FOR EVERY need a class of their kind.
pub fn statements_need_classes()
    ensures { StatementsNeedClasses }
{}

/// A name is used as the kind as which it is declared.
pub fn names_are_used_as_declared()
    ensures { NamesAreUsedAsDeclared }
{}

/// A set has one owner; the item that first names the set is refused, or the second OWNS.
pub fn sets_have_one_owner()
    ensures { SetsHaveOneOwner }
{}

/// A set has members of one class, which is not the system.
pub fn sets_have_one_member_class()
    ensures { SetsHaveOneMemberClass }
{}

/// A rank key is an attribute of the member class, and no kept one.
pub fn keys_are_attributes()
    ensures { KeysAreAttributes }
{}

/// Functions and routines take their counts of values.
pub fn counts_agree()
    ensures { CountsAgree }
{}

/// An event has an attribute for each of its parameters.
pub fn events_have_attributes_for_parameters()
    ensures { EventsHaveAttributesForParameters }
{}

/// An event class has a section, and a section of an event has a class; the item that first names
/// the class is refused.
pub fn events_have_sections()
    ensures { EventsHaveSections }
{}

/// TIME.V, functions and kept attributes are no targets, and loop variables are variables.
pub fn targets_may_change()
    ensures { TargetsMayChange }
{}

/// A PRINT has as many values as fields, and no decimal field.
pub fn fields_have_values()
    ensures { FieldsHaveValues }
{}

/// A program has one MAIN. The last END is refused if there is none, and so is the second MAIN.
pub fn there_is_one_main()
    ensures { ThereIsOneMain }
{}

/// One PRIORITY names event classes, each once.
pub fn priority_names_events_once()
    ensures { PriorityNamesEventsOnce }
{}

/// START SIMULATION is in MAIN.
pub fn simulation_starts_in_main()
    ensures { SimulationStartsInMain }
{}

/// IF FOUND and IF NONE are directly after a FIND.
pub fn found_is_asked_behind_find()
    ensures { FoundIsAskedBehindFind }
{}

/// If two statements break a rule, the earlier one is refused, even if its rule has the higher
/// number.
pub fn earlier_statement_counts()
    ensures { EarlierStatementCounts }
{}

/// If one statement breaks two rules, the lower one is reported.
pub fn lower_rule_counts()
    ensures { LowerRuleCounts }
{}

/// An event class has one section, and a section's name and parameters are its own.
pub fn sections_are_declared_once()
    ensures { SectionsAreDeclaredOnce }
{}

/// The ties of an event class are broken once, and it is named once as external.
pub fn orders_are_given_once()
    ensures { OrdersAreGivenOnce }
{}

/// A local DEFINE names only names that are not declared.
pub fn locals_have_names_of_their_own()
    ensures { LocalsHaveNamesOfTheirOwn }
{}

/// EXTERNAL and PRIORITY name event classes, before or after their headings.
pub fn orders_name_events()
    ensures { OrdersNameEvents }
{}

/// A routine has no value, and TIME.V has no subscript.
pub fn values_are_no_routines()
    ensures { ValuesAreNoRoutines }
{}

/// A tie key is an attribute of the event class, and a rank key one of the members, not of the
/// owners.
pub fn keys_are_of_their_class()
    ensures { KeysAreOfTheirClass }
{}

/// A name that is declared twice is refused at its second declaration, by C1. A key that its class
/// has is right. The CALL of a name that has a section ROUTINE is right too. Neither depends on
/// other declarations of the name before.
pub fn second_declarations_are_refused()
    ensures { SecondDeclarationsAreRefused }
{}

/// A notice has an attribute for each value of its SCHEDULE.
pub fn notices_have_attributes_for_values()
    ensures { NoticesHaveAttributesForValues }
{}

/// A CALL has a target for each yielded parameter.
pub fn yielded_are_counted()
    ensures { YieldedAreCounted }
{}

/// The first item that names an event class without section is refused, whatever its kind.
pub fn first_naming_is_refused()
    ensures { FirstNamingIsRefused }
{}

/// An attribute is a target with its subscript.
pub fn attributes_may_change()
    ensures { AttributesMayChange }
{}

/// START SIMULATION is not in an event.
pub fn events_start_no_simulation()
    ensures { EventsStartNoSimulation }
{}

/// The tables of a small preamble: attributes, owners, members and priority are numbers.
pub fn preamble_has_tables()
    ensures { PreambleHasTables }
{}

/// A program without a breach, each number looked up in its table, is its text again: its sections
/// with their lines, heads, local DEFINEs and places.
pub fn tables_give_the_text()
    ensures { TablesGiveTheText }
{}

/// The tables of a program without a breach, each number looked up in its table, give the contents
/// of the items of its preamble: the variables, the classes with their kinds, attributes, ties and
/// sections, the sets with their owners, members and disciplines, and the order of priority.
pub fn tables_give_the_items()
    ensures { TablesGiveTheItems }
{}

/// An expression that has a meaning in a section, by the symbol table of a text without a breach,
/// names only rows of the text's program and local variables of the section.
pub fn asked_expressions_are_sound()
    ensures { AskedExpressionsAreSound }
{}

/// So does a condition that has a meaning in a section.
pub fn asked_conditions_are_sound()
    ensures { AskedConditionsAreSound }
{}

/// The uses of names in a section of a text without a breach have no fault there: all that its
/// places ask for has a meaning by the symbol table.
pub fn own_places_have_no_fault()
    ensures { OwnPlacesHaveNoFault }
{}

/// Expressions and conditions in the sections of a small text: their numbers, the names that are
/// unknown there, and the rules that they break.
pub fn asked_names_are_judged()
    ensures { AskedNamesAreJudged }
{}

/// A refusal by C1 says the name that is declared a second time.
pub fn second_names_are_said()
    ensures { SecondNamesAreSaid }
{}

/// A refusal of a place says the first name that breaks the rule.
pub fn first_wrong_uses_are_said()
    ensures { FirstWrongUsesAreSaid }
{}

/// A refusal of an item says the set, the key or the event that is wrong.
pub fn wrong_items_are_said()
    ensures { WrongItemsAreSaid }
{}

/// A refusal by a rule that is about no name says none.
pub fn other_rules_say_no_name()
    ensures { OtherRulesSayNoName }
{}

/// A place that breaks a rule on names is refused by its first use that breaks this rule, and by
/// the name of that use.
pub fn places_name_their_use()
    ensures { PlacesNameTheirUse }
{}

/// A local DEFINE that breaks a rule is refused by its first name that is declared.
pub fn locals_name_the_declared()
    ensures { LocalsNameTheDeclared }
{}
