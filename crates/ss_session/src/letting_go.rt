//! Calls that let go the values that a model is read into, so that a crate that reads one has no
//! ends of its own of all that is owned there.
use ss_check::SymbolTable;
use ss_preamble::Decls;
use ss_words::Words;

/// Lets the words of a model go.
pub fn drop_words(words: Words) {
    drop(words);
}

/// Lets the items of a preamble go.
pub fn drop_decls(decls: Decls) {
    drop(decls);
}

/// Lets the symbol table of a model's text go.
pub fn drop_symbols(symbols: SymbolTable) {
    drop(symbols);
}
