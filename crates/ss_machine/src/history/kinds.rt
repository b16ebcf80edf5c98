//! The kinds of changes, and the number with which the journal writes each.

ghost use Rattle.std.specs.Prelude.{◌≡◌, MatchBool};
ghost use Rattle.ss_machine.specs.History.{IsOfChange};
ghost use Rattle.ss_machine.specs.declared.history.kinds.ChangeKind.TheVariants as kinds;
ghost use Rattle.ss_machine.specs.declared.history.kinds.ControlChangeKind.TheVariants as controls;
ghost use Rattle.ss_machine.specs.History.Kinds.{
  kind_of,
  value_kind_of,
  control_kind_of,
  loop_kind_of,
  entity_kind_of,
  set_kind_of,
  time_kind_of,
  entry_kind_of,
  text_kind_of,
};

/// The kinds of changes, by the part that changes. A kind determines which numbers give the change,
/// and which parts are kept in addition.
#[derive(Clone, Copy)]
pub enum ChangeKind {
    Value(ValueChangeKind),
    Control(ControlChangeKind),
    Loop(LoopChangeKind),
    Entity(EntityChangeKind),
    Set(SetChangeKind),
    Time(TimeChangeKind),
    Entry(EntryChangeKind),
    Text(TextChangeKind),
}

/// Changes of a variable, of FIND's answer or of COMPUTE's values.
#[derive(Clone, Copy)]
pub enum ValueChangeKind {
    Variable,
    Local,
    Found,
    Statistics,
}

/// Changes of the run's place, frames or status.
#[derive(Clone, Copy)]
pub enum ControlChangeKind {
    Place,
    FrameOpened,
    FrameDropped,
    Status,
    SmallFrameDropped,
}

/// Changes of open loops.
#[derive(Clone, Copy)]
pub enum LoopChangeKind {
    Opened,
    Moved,
    MovedFromNone,
    Closed,
}

/// Changes of entities.
#[derive(Clone, Copy)]
pub enum EntityChangeKind {
    Created,
    ClassCreated,
    AttributeSet,
    Ended,
}

/// Changes of sets.
#[derive(Clone, Copy)]
pub enum SetChangeKind {
    Filed,
    FirstRemoved,
    Removed,
}

/// Changes of the clock and of the event list.
#[derive(Clone, Copy)]
pub enum TimeChangeKind {
    Clock,
    Scheduled,
    FirstTakenOff,
    TakenOff,
}

/// Changes of the entry of an external event.
#[derive(Clone, Copy)]
pub enum EntryChangeKind {
    Absent,
    Waiting,
    Running,
}

/// Changes of data and report.
#[derive(Clone, Copy)]
pub enum TextChangeKind {
    Taken,
    Report,
}

/// How many kinds there may be of each sort.
const SORT: u64 = 8;

impl ChangeKind {
    /// The number that gives the kind.
    #[inline(always)]
    pub fn number(self) -> u64
        ensures { kind_of result ≡ self }
    {
        match self {
            ChangeKind::Value(kind) => kind as u64,
            ChangeKind::Control(kind) => SORT + kind as u64,
            ChangeKind::Loop(kind) => 2 * SORT + kind as u64,
            ChangeKind::Entity(kind) => 3 * SORT + kind as u64,
            ChangeKind::Set(kind) => 4 * SORT + kind as u64,
            ChangeKind::Time(kind) => 5 * SORT + kind as u64,
            ChangeKind::Entry(kind) => 6 * SORT + kind as u64,
            ChangeKind::Text(kind) => 7 * SORT + kind as u64,
        }
    }

    /// Whether this is that a small frame was dropped.
    #[inline(always)]
    pub fn is_small_frame(self) -> bool
        ensures { MatchBool result
            (self ≡ kinds.Control controls.SmallFrameDropped) (IsOfChange self) }
    {
        match self {
            ChangeKind::Control(ControlChangeKind::SmallFrameDropped) => true,
            _ => false,
        }
    }

    /// The kind that a number gives.
    pub fn of_number(number: u64) -> ChangeKind
        ensures { result ≡ kind_of number }
    {
        let which = number % SORT;
        match number / SORT {
            0 => ChangeKind::Value(value_kind(which)),
            1 => ChangeKind::Control(control_kind(which)),
            2 => ChangeKind::Loop(loop_kind(which)),
            3 => ChangeKind::Entity(entity_kind(which)),
            4 => ChangeKind::Set(set_kind(which)),
            5 => ChangeKind::Time(time_kind(which)),
            6 => ChangeKind::Entry(entry_kind(which)),
            _ => ChangeKind::Text(text_kind(which)),
        }
    }
}

fn value_kind(which: u64) -> ValueChangeKind
    ensures { result ≡ value_kind_of which }
{
    match which {
        0 => ValueChangeKind::Variable,
        1 => ValueChangeKind::Local,
        2 => ValueChangeKind::Found,
        _ => ValueChangeKind::Statistics,
    }
}

fn control_kind(which: u64) -> ControlChangeKind
    ensures { result ≡ control_kind_of which }
{
    match which {
        0 => ControlChangeKind::Place,
        1 => ControlChangeKind::FrameOpened,
        2 => ControlChangeKind::FrameDropped,
        3 => ControlChangeKind::Status,
        _ => ControlChangeKind::SmallFrameDropped,
    }
}

fn loop_kind(which: u64) -> LoopChangeKind
    ensures { result ≡ loop_kind_of which }
{
    match which {
        0 => LoopChangeKind::Opened,
        1 => LoopChangeKind::Moved,
        2 => LoopChangeKind::MovedFromNone,
        _ => LoopChangeKind::Closed,
    }
}

fn entity_kind(which: u64) -> EntityChangeKind
    ensures { result ≡ entity_kind_of which }
{
    match which {
        0 => EntityChangeKind::Created,
        1 => EntityChangeKind::ClassCreated,
        2 => EntityChangeKind::AttributeSet,
        _ => EntityChangeKind::Ended,
    }
}

fn set_kind(which: u64) -> SetChangeKind
    ensures { result ≡ set_kind_of which }
{
    match which {
        0 => SetChangeKind::Filed,
        1 => SetChangeKind::FirstRemoved,
        _ => SetChangeKind::Removed,
    }
}

fn time_kind(which: u64) -> TimeChangeKind
    ensures { result ≡ time_kind_of which }
{
    match which {
        0 => TimeChangeKind::Clock,
        1 => TimeChangeKind::Scheduled,
        2 => TimeChangeKind::FirstTakenOff,
        _ => TimeChangeKind::TakenOff,
    }
}

fn entry_kind(which: u64) -> EntryChangeKind
    ensures { result ≡ entry_kind_of which }
{
    match which {
        0 => EntryChangeKind::Absent,
        1 => EntryChangeKind::Waiting,
        _ => EntryChangeKind::Running,
    }
}

fn text_kind(which: u64) -> TextChangeKind
    ensures { result ≡ text_kind_of which }
{
    match which {
        0 => TextChangeKind::Taken,
        _ => TextChangeKind::Report,
    }
}
