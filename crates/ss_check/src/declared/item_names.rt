//! Adding the names that items use in orders, as classes and for disciplines.

ghost use Rattle.std.specs.Prelude.{◌≡◌, ◌++◌, OnOk};
ghost use Rattle.ss_words.specs.Lists.{all_of, several_view};
ghost use Rattle.ss_preamble.specs.View as view;
ghost use Rattle.ss_check.specs.Declarations as declared;

use crate::declared::name_list::NameList;
use crate::declared::tables::Tables;
use ss_preamble::{Definition, EventRule, Item, Names};
use std::alloc::AllocError;

/// Adds names at the end of a list.
pub(crate) fn add_names(list: &mut NameList, names: &Names) -> Result<(), AllocError>
    ensures { OnOk result (list.new ≡ list.old ++ all_of (several_view (λ n. n) names.now)) }
{
    list.add(names.first.bytes())?;
    for name in &names.others {
        list.add(name.bytes())?;
    }
    Ok(())
}

/// Adds the names that an item uses as classes, in orders and for disciplines.
pub(crate) fn add_item_names(tables: &mut Tables, item: &Item) -> Result<(), AllocError>
    ensures { OnOk result (tables.new ≡ record tables.old {
      disciplines = tables.old.disciplines ++ declared.disciplined_sets (view.item_view item.now);
      ties = tables.old.ties ++ declared.tied_events (view.item_view item.now);
      external = tables.old.external ++ declared.external_in (view.item_view item.now);
      priority = tables.old.priority ++ declared.priority_in (view.item_view item.now);
      classes = tables.old.classes ++ declared.classes_in (view.item_view item.now);
    }) }
{
    match item {
        Item::Headed {
            included: Some(names),
            ..
        } => add_names(&mut tables.classes, names),
        Item::OfEvery { class, .. } => tables.classes.add(class.bytes()),
        Item::Defines(Definition::Sets { names, .. }) => add_names(&mut tables.disciplines, names),
        Item::Orders(EventRule::BreakTies { event, .. }) => {
            tables.ties.add(event.bytes())?;
            tables.classes.add(event.bytes())
        }
        Item::Orders(EventRule::ExternalEvents(names)) => {
            add_names(&mut tables.external, names)?;
            add_names(&mut tables.classes, names)
        }
        Item::Orders(EventRule::PriorityOrder(names)) => {
            add_names(&mut tables.priority, names)?;
            add_names(&mut tables.classes, names)
        }
        Item::Normally
        | Item::Headed { included: None, .. }
        | Item::OfSystem(_)
        | Item::Defines(Definition::Variables(_)) => Ok(()),
    }
}
