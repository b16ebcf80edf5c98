//! The kinds as which names are declared: the tables of a whole text, filled item by item and head
//! by head.
pub mod class_need;
pub mod fact;
pub mod fact_table;
pub mod function;
pub mod item_names;
pub mod kind_table;
pub mod name_kind;
pub mod name_list;
pub mod name_tables;
pub mod set_facts;
pub mod tables;
