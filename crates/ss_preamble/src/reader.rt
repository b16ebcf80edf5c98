//! Reading the items of a preamble.
ghost use Rattle.std.specs.Prelude.{IfSome, IfOk, IsTrue, Some, length, ◌≤◌, ◌<◌, ◌-◌};
ghost use Rattle.ss_words.specs.declared.mark.Mark.TheVariants as mark;
ghost use Rattle.ss_words.specs.Plain.{word_lines};
ghost use Rattle.ss_words.specs.declared.reserved.Reserved.TheVariants as reserved;
ghost use Rattle.ss_words.specs.Plain as plain;
ghost use Rattle.ss_words.specs.Reading.{Gives, bind, pure, option_view, rest_of};
ghost use Rattle.ss_words.specs.Marks.{expect};
ghost use Rattle.ss_words.specs.Lists.{several_view};
ghost use Rattle.ss_preamble.specs.ItemReading as reading;
ghost use Rattle.ss_preamble.specs.ItemsAtLines as lined;
ghost use Rattle.ss_preamble.specs.Tree.{Sets};
ghost use Rattle.ss_preamble.specs.View.{definition_view, event_rule_view, item_view, items_view, decls_view};
ghost use Rattle.ss_preamble.specs.View.{set_discipline_view};

use crate::clause::clauses;
use crate::item::{Decls, Definition, EventRule, Heading, Item, ItemAt, Names, SetDiscipline};
use crate::key::keys;
use ss_words::{Cursor, Mark, Plain, PlainWord, Refusal, Reserved};

/// `preamble = PREAMBLE {item} END`, whose words are the last ones of `text`.
#[tactic(auto, unfolding(crate::proofs::Unfoldings::steps_at_line, crate::specs::ItemsAtLines::preamble_at))]
pub fn declarations(cursor: &mut Cursor<'_>, text: &[PlainWord<'_>]) -> Result<Decls, Refusal>
    ensures exact { Gives decls_view result cursor.new
        (lined.preamble_at (word_lines text.now) cursor.old) }
    ensures shorter { length cursor.new ≤ length cursor.old }
{
    cursor.expect(Mark::Reserved(Reserved::Preamble))?;
    let mut items = Vec::new(cursor.alloc());
    item_list(cursor, text, &mut items)?;
    let end = cursor.line(text);
    cursor.expect(Mark::Reserved(Reserved::End))?;
    Ok(Decls {
        items,
        end: Some(end),
    })
}

/// Reads items, as long as one begins, and pushes them.
fn item_list(
    cursor: &mut Cursor<'_>,
    text: &[PlainWord<'_>],
    out: &mut Vec<ItemAt>,
) -> Result<(), Refusal>
    ensures exact { Gives (λ u. items_view out.new.items) result cursor.new
        (lined.items_at (word_lines text.now) (items_view out.old.items) cursor.old) }
    ensures shorter { length cursor.new ≤ length cursor.old }
{
    while push_item(cursor, text, out)? {}
    Ok(())
}

/// Reads an item, if one begins here, and pushes it.
#[tactic(auto, using(crate::proofs::NotedItems::pushed), unfolding(crate::proofs::Unfoldings::item_at_line))]
fn push_item(
    cursor: &mut Cursor<'_>,
    text: &[PlainWord<'_>],
    out: &mut Vec<ItemAt>,
) -> Result<bool, Refusal>
    ensures exact { Gives (λ b. (b, items_view out.new.items)) result cursor.new
        (lined.next_item_at (word_lines text.now) (items_view out.old.items) cursor.old) }
    ensures shorter { length cursor.new ≤ length cursor.old }
    ensures taken { IfOk result (λ b. IsTrue b → length cursor.new < length cursor.old) }
{
    let line = cursor.line(text);
    let Some(item) = next_item(cursor)? else {
        return Ok(false);
    };
    out.push(ItemAt { line, item })?;
    Ok(true)
}

/// An item, or nothing if none begins here.
#[tactic(auto, unfolding(crate::proofs::Unfoldings::steps_by_word, crate::specs::ItemReading::next_item))]
fn next_item(cursor: &mut Cursor<'_>) -> Result<Option<Item>, Refusal>
    ensures exact { Gives (option_view item_view) result cursor.new (reading.next_item cursor.old) }
    ensures shorter { length cursor.new ≤ length cursor.old }
    ensures taken { IfOk result (λ o. IfSome o (λ _. length cursor.new < length cursor.old)) }
{
    match cursor.peek() {
        Some(Plain::Mark(Mark::Reserved(word))) => item_by(cursor, word),
        _ => Ok(None),
    }
}

/// The item that begins with this word, the next one; nothing if none begins with it.
#[tactic(auto, unfolding(crate::proofs::Unfoldings::steps_by_word))]
fn item_by(cursor: &mut Cursor<'_>, word: Reserved) -> Result<Option<Item>, Refusal>
    requires { 0 < length cursor.now }
    ensures exact { Gives (option_view item_view) result cursor.new
        (reading.item_by (Some (plain.mark (mark.Reserved word))) cursor.old) }
    ensures shorter { length cursor.new ≤ length cursor.old }
    ensures taken { IfOk result (λ o. IfSome o (λ _. length cursor.new < length cursor.old)) }
{
    let item = match word {
        Reserved::Normally => normally(cursor),
        Reserved::Permanent => heading(cursor, Heading::PermanentEntities, Reserved::Entities),
        Reserved::Temporary => heading(cursor, Heading::TemporaryEntities, Reserved::Entities),
        Reserved::Event => heading(cursor, Heading::EventNotices, Reserved::Notices),
        Reserved::Every => every(cursor),
        Reserved::System => of_system(cursor),
        Reserved::Define => definition(cursor),
        Reserved::Priority => priority(cursor),
        Reserved::Break => ties(cursor),
        Reserved::External => external(cursor),
        _ => return Ok(None),
    };
    Ok(Some(item?))
}

/// `SYSTEM clause {clause}`, from its first word on.
#[tactic(auto, unfolding(crate::proofs::Unfoldings::steps_by_word))]
fn of_system(cursor: &mut Cursor<'_>) -> Result<Item, Refusal>
    ensures exact { Gives (λ i. Some (item_view i)) result cursor.new
        (reading.item_by (Some (plain.mark (mark.Reserved reserved.System))) cursor.old) }
    ensures shorter { length cursor.new ≤ length cursor.old - 1 }
{
    cursor.pass();
    Ok(Item::OfSystem(clauses(cursor)?))
}

/// `NORMALLY MODE IS INTEGER`, from its first word on.
#[tactic(auto, unfolding(crate::proofs::Unfoldings::steps_by_word, crate::specs::ItemReading::normally_with))]
fn normally(cursor: &mut Cursor<'_>) -> Result<Item, Refusal>
    ensures exact { Gives (λ i. Some (item_view i)) result cursor.new
        (reading.item_by (Some (plain.mark (mark.Reserved reserved.Normally))) cursor.old) }
    ensures shorter { length cursor.new ≤ length cursor.old - 1 }
{
    cursor.pass();
    cursor.expect(Mark::Reserved(Reserved::Mode))?;
    cursor.expect(Mark::Reserved(Reserved::Is))?;
    cursor.expect(Mark::Reserved(Reserved::Integer))?;
    Ok(Item::Normally)
}

/// A heading from its first word on: this second word and `[INCLUDE names]` after it.
#[tactic(auto, unfolding(crate::proofs::Unfoldings::steps, crate::specs::ItemReading::heading_with))]
fn heading(cursor: &mut Cursor<'_>, heading: Heading, second: Reserved) -> Result<Item, Refusal>
    ensures exact { Gives item_view result cursor.new
        (reading.heading_with heading (mark.Reserved second) (rest_of cursor.old)) }
    ensures shorter { length cursor.new ≤ length cursor.old - 1 }
{
    cursor.pass();
    cursor.expect(Mark::Reserved(second))?;
    let included = cursor.names_behind(Mark::Reserved(Reserved::Include))?;
    Ok(Item::Headed { heading, included })
}

/// `EVERY name clause {clause}`, from its first word on.
#[tactic(auto, unfolding(crate::proofs::Unfoldings::steps_by_word, crate::specs::ItemReading::every_with))]
fn every(cursor: &mut Cursor<'_>) -> Result<Item, Refusal>
    ensures exact { Gives (λ i. Some (item_view i)) result cursor.new
        (reading.item_by (Some (plain.mark (mark.Reserved reserved.Every))) cursor.old) }
    ensures shorter { length cursor.new ≤ length cursor.old - 1 }
{
    cursor.pass();
    let class = cursor.name()?;
    let clauses = clauses(cursor)?;
    Ok(Item::OfEvery { class, clauses })
}

/// `DEFINE names AS` and the variables or sets that they are, from the first word on.
#[tactic(auto, unfolding(crate::proofs::Unfoldings::steps_by_word, crate::specs::ItemReading::definition_with))]
fn definition(cursor: &mut Cursor<'_>) -> Result<Item, Refusal>
    ensures exact { Gives (λ i. Some (item_view i)) result cursor.new
        (reading.item_by (Some (plain.mark (mark.Reserved reserved.Define))) cursor.old) }
    ensures shorter { length cursor.new ≤ length cursor.old - 1 }
{
    cursor.pass();
    let names = cursor.names()?;
    cursor.expect(Mark::Reserved(Reserved::As))?;
    Ok(Item::Defines(definition_of(cursor, names)?))
}

/// `INTEGER VARIABLES | FIFO SETS | LIFO SETS | SETS RANKED keys`, after the names of a DEFINE and
/// its AS.
#[tactic(auto, unfolding(crate::proofs::Unfoldings::steps_by_word, crate::specs::ItemReading::definition_of))]
fn definition_of(cursor: &mut Cursor<'_>, names: Names) -> Result<Definition, Refusal>
    ensures exact { Gives definition_view result cursor.new
        (reading.definition_of (several_view (λ n. n) names) cursor.old) }
    ensures shorter { length cursor.new ≤ length cursor.old }
{
    match cursor.peek() {
        Some(Plain::Mark(Mark::Reserved(word))) => definition_by(cursor, names, word),
        _ => Err(Refusal::Unexpected),
    }
}

/// The rest of a DEFINE after its AS, if this is the next word.
#[tactic(auto, unfolding(crate::proofs::Unfoldings::steps_by_word))]
fn definition_by(
    cursor: &mut Cursor<'_>,
    names: Names,
    word: Reserved,
) -> Result<Definition, Refusal>
    ensures exact { Gives definition_view result cursor.new
        (reading.definition_by (several_view (λ n. n) names)
        (Some (plain.mark (mark.Reserved word))) cursor.old) }
    ensures shorter { length cursor.new ≤ length cursor.old }
{
    match word {
        Reserved::Integer => variables(cursor, names),
        Reserved::Fifo => unranked(cursor, names, SetDiscipline::Fifo),
        Reserved::Lifo => unranked(cursor, names, SetDiscipline::Lifo),
        Reserved::Sets => ranked(cursor, names),
        _ => Err(Refusal::Unexpected),
    }
}

/// `INTEGER VARIABLES`, from its first word on.
#[tactic(auto, unfolding(crate::proofs::Unfoldings::steps_by_word))]
fn variables(cursor: &mut Cursor<'_>, names: Names) -> Result<Definition, Refusal>
    ensures exact { Gives definition_view result cursor.new (reading.definition_by
        (several_view (λ n. n) names)
        (Some (plain.mark (mark.Reserved reserved.Integer))) cursor.old) }
    ensures shorter { length cursor.new ≤ length cursor.old }
{
    cursor.pass();
    cursor.expect(Mark::Reserved(Reserved::Variables))?;
    Ok(Definition::Variables(names))
}

/// `FIFO SETS | LIFO SETS`, from its first word on, which says this kind.
#[tactic(auto, unfolding(crate::proofs::Unfoldings::steps_by_word))]
fn unranked(
    cursor: &mut Cursor<'_>,
    names: Names,
    kind: SetDiscipline,
) -> Result<Definition, Refusal>
    ensures exact { Gives definition_view result cursor.new
        (bind (expect (mark.Reserved reserved.Sets))
        (λ u. pure (Sets (several_view (λ n. n) names) (set_discipline_view kind)))
        (rest_of cursor.old)) }
    ensures shorter { length cursor.new ≤ length cursor.old }
{
    cursor.pass();
    cursor.expect(Mark::Reserved(Reserved::Sets))?;
    Ok(Definition::Sets { names, kind })
}

/// `SETS RANKED keys`, from its first word on.
#[tactic(auto, unfolding(crate::proofs::Unfoldings::steps_by_word))]
fn ranked(cursor: &mut Cursor<'_>, names: Names) -> Result<Definition, Refusal>
    ensures exact { Gives definition_view result cursor.new (reading.definition_by
        (several_view (λ n. n) names)
        (Some (plain.mark (mark.Reserved reserved.Sets))) cursor.old) }
    ensures shorter { length cursor.new ≤ length cursor.old }
{
    cursor.pass();
    cursor.expect(Mark::Reserved(Reserved::Ranked))?;
    let kind = SetDiscipline::Ranked(keys(cursor)?);
    Ok(Definition::Sets { names, kind })
}

/// `PRIORITY ORDER IS names`, from its first word on.
#[tactic(auto, unfolding(crate::proofs::Unfoldings::steps_by_word, crate::specs::ItemReading::priority_with))]
fn priority(cursor: &mut Cursor<'_>) -> Result<Item, Refusal>
    ensures exact { Gives (λ i. Some (item_view i)) result cursor.new
        (reading.item_by (Some (plain.mark (mark.Reserved reserved.Priority))) cursor.old) }
    ensures shorter { length cursor.new ≤ length cursor.old - 1 }
{
    cursor.pass();
    cursor.expect(Mark::Reserved(Reserved::Order))?;
    cursor.expect(Mark::Reserved(Reserved::Is))?;
    Ok(Item::Orders(EventRule::PriorityOrder(cursor.names()?)))
}

/// `BREAK name TIES keys`, from its first word on.
#[tactic(auto, unfolding(crate::proofs::Unfoldings::steps_by_word, crate::specs::ItemReading::break_with))]
fn ties(cursor: &mut Cursor<'_>) -> Result<Item, Refusal>
    ensures exact { Gives (λ i. Some (item_view i)) result cursor.new
        (reading.item_by (Some (plain.mark (mark.Reserved reserved.Break))) cursor.old) }
    ensures shorter { length cursor.new ≤ length cursor.old - 1 }
{
    cursor.pass();
    let event = cursor.name()?;
    cursor.expect(Mark::Reserved(Reserved::Ties))?;
    let keys = keys(cursor)?;
    Ok(Item::Orders(EventRule::BreakTies { event, keys }))
}

/// `EXTERNAL EVENTS ARE names`, from its first word on.
#[tactic(auto, unfolding(crate::proofs::Unfoldings::steps_by_word, crate::specs::ItemReading::external_with))]
fn external(cursor: &mut Cursor<'_>) -> Result<Item, Refusal>
    ensures exact { Gives (λ i. Some (item_view i)) result cursor.new
        (reading.item_by (Some (plain.mark (mark.Reserved reserved.External))) cursor.old) }
    ensures shorter { length cursor.new ≤ length cursor.old - 1 }
{
    cursor.pass();
    cursor.expect(Mark::Reserved(Reserved::Events))?;
    cursor.expect(Mark::Reserved(Reserved::Are))?;
    Ok(Item::Orders(EventRule::ExternalEvents(cursor.names()?)))
}
