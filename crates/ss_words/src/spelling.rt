//! The reserved spellings, and the one place where a name is looked up among them.
ghost use Rattle.std.specs.Prelude.{◌≡◌, map};
ghost use Rattle.ss_words.specs.Spellings as spec;
ghost use Rattle.ss_words.specs.Spellings.{mark_of};

use crate::mark::Mark;
use crate::reserved::Reserved;
use crate::word::Sign;

/// Every spelling that no name may have, and the reserved word or sign that it means. Spellings
/// that mean the same, as EVERY, EACH and ALL, have one mark. The definitions read this table too
/// (specs/Spellings.antt).
pub const SPELLINGS: [(&[u8], Mark); 130] = [
    (b"A", Mark::Reserved(Reserved::A)),
    (b"AN", Mark::Reserved(Reserved::An)),
    (b"THE", Mark::Reserved(Reserved::The)),
    (b"THIS", Mark::Reserved(Reserved::This)),
    (b"MAY", Mark::Reserved(Reserved::May)),
    (b"PREAMBLE", Mark::Reserved(Reserved::Preamble)),
    (b"END", Mark::Reserved(Reserved::End)),
    (b"MAIN", Mark::Reserved(Reserved::Main)),
    (b"ROUTINE", Mark::Reserved(Reserved::Routine)),
    (b"EVENT", Mark::Reserved(Reserved::Event)),
    (b"EVENTS", Mark::Reserved(Reserved::Events)),
    (b"EXTERNAL", Mark::Reserved(Reserved::External)),
    (b"ARE", Mark::Reserved(Reserved::Are)),
    (b"NOTICE", Mark::Reserved(Reserved::Notices)),
    (b"NOTICES", Mark::Reserved(Reserved::Notices)),
    (b"PERMANENT", Mark::Reserved(Reserved::Permanent)),
    (b"TEMPORARY", Mark::Reserved(Reserved::Temporary)),
    (b"ENTITY", Mark::Reserved(Reserved::Entities)),
    (b"ENTITIES", Mark::Reserved(Reserved::Entities)),
    (b"INCLUDE", Mark::Reserved(Reserved::Include)),
    (b"EVERY", Mark::Reserved(Reserved::Every)),
    (b"EACH", Mark::Reserved(Reserved::Every)),
    (b"ALL", Mark::Reserved(Reserved::Every)),
    (b"SYSTEM", Mark::Reserved(Reserved::System)),
    (b"HAS", Mark::Reserved(Reserved::Has)),
    (b"HAVE", Mark::Reserved(Reserved::Has)),
    (b"OWNS", Mark::Reserved(Reserved::Owns)),
    (b"OWN", Mark::Reserved(Reserved::Owns)),
    (b"BELONGS", Mark::Reserved(Reserved::Belongs)),
    (b"BELONG", Mark::Reserved(Reserved::Belongs)),
    (b"TO", Mark::Reserved(Reserved::To)),
    (b"NORMALLY", Mark::Reserved(Reserved::Normally)),
    (b"MODE", Mark::Reserved(Reserved::Mode)),
    (b"IS", Mark::Reserved(Reserved::Is)),
    (b"INTEGER", Mark::Reserved(Reserved::Integer)),
    (b"DEFINE", Mark::Reserved(Reserved::Define)),
    (b"AS", Mark::Reserved(Reserved::As)),
    (b"VARIABLE", Mark::Reserved(Reserved::Variables)),
    (b"VARIABLES", Mark::Reserved(Reserved::Variables)),
    (b"FIFO", Mark::Reserved(Reserved::Fifo)),
    (b"LIFO", Mark::Reserved(Reserved::Lifo)),
    (b"SET", Mark::Reserved(Reserved::Sets)),
    (b"SETS", Mark::Reserved(Reserved::Sets)),
    (b"RANKED", Mark::Reserved(Reserved::Ranked)),
    (b"BY", Mark::Reserved(Reserved::By)),
    (b"HIGH", Mark::Reserved(Reserved::High)),
    (b"LOW", Mark::Reserved(Reserved::Low)),
    (b"THEN", Mark::Reserved(Reserved::Then)),
    (b"PRIORITY", Mark::Reserved(Reserved::Priority)),
    (b"ORDER", Mark::Reserved(Reserved::Order)),
    (b"BREAK", Mark::Reserved(Reserved::Break)),
    (b"TIES", Mark::Reserved(Reserved::Ties)),
    (b"SAVING", Mark::Reserved(Reserved::Saving)),
    (b"GIVEN", Mark::Reserved(Reserved::Given)),
    (b"GIVING", Mark::Reserved(Reserved::Given)),
    (b"YIELDING", Mark::Reserved(Reserved::Yielding)),
    (b"LET", Mark::Reserved(Reserved::Let)),
    (b"ADD", Mark::Reserved(Reserved::Add)),
    (b"SUBTRACT", Mark::Reserved(Reserved::Subtract)),
    (b"FROM", Mark::Reserved(Reserved::From)),
    (b"CREATE", Mark::Reserved(Reserved::Create)),
    (b"CALLED", Mark::Reserved(Reserved::Called)),
    (b"DESTROY", Mark::Reserved(Reserved::Destroy)),
    (b"FILE", Mark::Reserved(Reserved::File)),
    (b"REMOVE", Mark::Reserved(Reserved::Remove)),
    (b"FIRST", Mark::Reserved(Reserved::First)),
    (b"LAST", Mark::Reserved(Reserved::Last)),
    (b"BEFORE", Mark::Reserved(Reserved::Before)),
    (b"AFTER", Mark::Reserved(Reserved::After)),
    (b"IN", Mark::Reserved(Reserved::In)),
    (b"ON", Mark::Reserved(Reserved::In)),
    (b"OF", Mark::Reserved(Reserved::In)),
    (b"AT", Mark::Reserved(Reserved::At)),
    (b"IF", Mark::Reserved(Reserved::If)),
    (b"ELSE", Mark::Reserved(Reserved::Else)),
    (b"OTHERWISE", Mark::Reserved(Reserved::Else)),
    (b"ALWAYS", Mark::Reserved(Reserved::Always)),
    (b"REGARDLESS", Mark::Reserved(Reserved::Always)),
    (b"FOUND", Mark::Reserved(Reserved::Found)),
    (b"NONE", Mark::Reserved(Reserved::NoneFound)),
    (b"NOT", Mark::Reserved(Reserved::Not)),
    (b"EMPTY", Mark::Reserved(Reserved::Empty)),
    (b"AND", Mark::Reserved(Reserved::And)),
    (b"OR", Mark::Reserved(Reserved::Or)),
    (b"EQ", Mark::Sign(Sign::Equal)),
    (b"NE", Mark::Reserved(Reserved::Ne)),
    (b"LT", Mark::Sign(Sign::Less)),
    (b"LS", Mark::Sign(Sign::Less)),
    (b"GT", Mark::Sign(Sign::Greater)),
    (b"GR", Mark::Sign(Sign::Greater)),
    (b"LE", Mark::Sign(Sign::LessEqual)),
    (b"GE", Mark::Sign(Sign::GreaterEqual)),
    (b"FOR", Mark::Reserved(Reserved::For)),
    (b"BACK", Mark::Reserved(Reserved::Back)),
    (b"REVERSE", Mark::Reserved(Reserved::Reverse)),
    (b"WITH", Mark::Reserved(Reserved::With)),
    (b"UNLESS", Mark::Reserved(Reserved::Unless)),
    (b"WHILE", Mark::Reserved(Reserved::While)),
    (b"UNTIL", Mark::Reserved(Reserved::Until)),
    (b"DO", Mark::Reserved(Reserved::Do)),
    (b"LOOP", Mark::Reserved(Reserved::Loop)),
    (b"REPEAT", Mark::Reserved(Reserved::Loop)),
    (b"FIND", Mark::Reserved(Reserved::Find)),
    (b"CASE", Mark::Reserved(Reserved::Case)),
    (b"COMPUTE", Mark::Reserved(Reserved::Compute)),
    (b"NUMBER", Mark::Reserved(Reserved::Number)),
    (b"SUM", Mark::Reserved(Reserved::Sum)),
    (b"MAXIMUM", Mark::Reserved(Reserved::Maximum)),
    (b"MINIMUM", Mark::Reserved(Reserved::Minimum)),
    (b"SCHEDULE", Mark::Reserved(Reserved::Schedule)),
    (b"CAUSE", Mark::Reserved(Reserved::Schedule)),
    (b"CANCEL", Mark::Reserved(Reserved::Cancel)),
    (b"NOW", Mark::Reserved(Reserved::Now)),
    (b"UNIT", Mark::Reserved(Reserved::Days)),
    (b"UNITS", Mark::Reserved(Reserved::Days)),
    (b"DAY", Mark::Reserved(Reserved::Days)),
    (b"DAYS", Mark::Reserved(Reserved::Days)),
    (b"START", Mark::Reserved(Reserved::Start)),
    (b"SIMULATION", Mark::Reserved(Reserved::Simulation)),
    (b"STOP", Mark::Reserved(Reserved::Stop)),
    (b"CALL", Mark::Reserved(Reserved::Call)),
    (b"RETURN", Mark::Reserved(Reserved::Return)),
    (b"READ", Mark::Reserved(Reserved::Read)),
    (b"PRINT", Mark::Reserved(Reserved::Print)),
    (b"LINE", Mark::Reserved(Reserved::Lines)),
    (b"LINES", Mark::Reserved(Reserved::Lines)),
    (b"THUS", Mark::Reserved(Reserved::Thus)),
    (b"FOLLOWS", Mark::Reserved(Reserved::Follows)),
    (b"SKIP", Mark::Reserved(Reserved::Skip)),
    (b"OUTPUT", Mark::Reserved(Reserved::Output)),
];

/// The mark for which a name in upper case is reserved; `None` if it is free (docs/LANGUAGE.md,
/// "Plain words").
#[tactic(auto, unfolding(crate::specs::Spellings::mark_of, crate::specs::Spellings::spellings))]
pub fn reserved(name: &[u8]) -> Option<Mark>
    ensures { result ≡ mark_of name.now }
{
    mark_beside(name, &SPELLINGS)
}

/// Whether a name in upper case is reserved (docs/LANGUAGE.md, "Plain words").
pub fn is_reserved_name(name: &[u8]) -> bool
    ensures { result ≡ spec.is_reserved_name name.now }
{
    reserved(name).is_some()
}

fn mark_beside(name: &[u8], mut rows: &[(&[u8], Mark)]) -> Option<Mark>
    ensures { result ≡ spec.mark_beside name.now (map (λ row. (row.0.now, row.1)) rows.entry.now) }
{
    while let [row, rest @ ..] = rows {
        if row.0 == name {
            return Some(row.1);
        }
        rows = rest;
    }
    None
}
