//! The ways on from each place; the places that belong together are found once, before a run.
ghost use Rattle.std.specs.Prelude.{◌≡◌, ◌+◌, ◌^◌, ◌<◌, ◌≤◌, length, drop, reverse, IfOk};
ghost use Rattle.ss_program.specs.Match as places;
ghost use Rattle.ss_program.specs.Pairings.{is_wanted, goes_deeper, comes_back};

use crate::branch::Branch;
use crate::looping::Looping;
use crate::place::{Place, Spot};
use std::alloc::{AllocError, Global};

/// The answer or statistics that the entry of a FOR phrase resets.
#[derive(Clone, Copy, PartialEq, Eq)]
pub enum Resets {
    Nothing,
    /// The answer of FIND: the first phrase of its chain.
    Found,
    /// The statistics of COMPUTE: the first phrase of its chain.
    Statistics,
}

/// The ways on from a place (docs/LANGUAGE.md, "Steps"), by the numbers of places of its section.
#[derive(Clone, Copy, PartialEq, Eq)]
pub struct Ways {
    /// The next place when it is done. For END the number has no meaning.
    pub next: usize,
    /// The place after a false IF or a closed loop; 0 for other places.
    pub exit: usize,
    /// How many loops FIND closes; 0 for other places.
    pub chain: usize,
    /// The answer or statistics that the entry of a FOR phrase resets.
    pub resets: Resets,
}

/// The partner of a place, and the direction in which it is.
#[derive(Clone, Copy)]
pub(crate) enum Pairing {
    /// The ELSE or ALWAYS after an IF or ELSE.
    BranchEnd,
    /// The ALWAYS after an IF.
    EndOfIf,
    /// The IF before an ALWAYS.
    StartOfIf,
    /// The LOOP after a phrase with DO.
    EndOfDo,
    /// The phrase before a LOOP.
    StartOfDo,
}

impl Pairing {
    fn wants(self, place: &Place) -> bool
        ensures { result ≡ is_wanted self place.now }
    {
        match self {
            Pairing::BranchEnd => is_else(place) || is_always(place),
            Pairing::EndOfIf => is_always(place),
            Pairing::StartOfIf => is_if(place),
            Pairing::EndOfDo => is_loop(place),
            Pairing::StartOfDo => is_do(place),
        }
    }

    fn goes_deeper(self, place: &Place) -> bool
        ensures { result ≡ goes_deeper self place.now }
    {
        match self {
            Pairing::BranchEnd | Pairing::EndOfIf => is_if(place),
            Pairing::StartOfIf => is_always(place),
            Pairing::EndOfDo => is_do(place),
            Pairing::StartOfDo => is_loop(place),
        }
    }

    fn comes_back(self, place: &Place) -> bool
        ensures { result ≡ comes_back self place.now }
    {
        match self {
            Pairing::BranchEnd | Pairing::EndOfIf => is_always(place),
            Pairing::StartOfIf => is_if(place),
            Pairing::EndOfDo => is_loop(place),
            Pairing::StartOfDo => is_do(place),
        }
    }

    fn depth_behind(self, depth: usize, place: &Place) -> usize
        requires { depth < 2 ^ 63 }
        ensures { result ≡ places.depth_behind (goes_deeper self)
            (comes_back self) depth place.now }
    {
        if self.goes_deeper(place) {
            return depth + 1;
        }
        if self.comes_back(place) {
            return depth.saturating_sub(1);
        }
        depth
    }
}

fn is_if(place: &Place) -> bool
    ensures { result ≡ places.is_if place.now }
{
    matches!(place, Place::Branch(Branch::If(_)))
}

fn is_else(place: &Place) -> bool
    ensures { result ≡ places.is_else place.now }
{
    matches!(place, Place::Branch(Branch::Else))
}

fn is_always(place: &Place) -> bool
    ensures { result ≡ places.is_always place.now }
{
    matches!(place, Place::Branch(Branch::Always))
}

fn is_loop(place: &Place) -> bool
    ensures { result ≡ places.is_loop place.now }
{
    matches!(place, Place::Looping(Looping::Loop))
}

fn is_do(place: &Place) -> bool
    ensures { result ≡ places.is_do place.now }
{
    match place {
        Place::Looping(Looping::For(phrase)) => phrase.value().has_do,
        _ => false,
    }
}

fn controls_next_place(place: &Place) -> bool
    ensures { result ≡ places.controls_next_place place.now }
{
    match place {
        Place::Looping(Looping::For(phrase)) => !phrase.value().has_do,
        _ => false,
    }
}

/// The number of these places before the first one that is wanted.
fn distance_onward(pairing: Pairing, spots: &[Spot]) -> usize
    requires few { length spots.now < 2 ^ 63 }
    ensures distance { result
        ≡ places.distance (is_wanted pairing) (goes_deeper pairing)
        (comes_back pairing) 0 spots.now }
    ensures within { result ≤ length spots.now }
{
    let mut depth = 0;
    let mut count = 0;
    for spot in spots {
        if pairing.wants(&spot.place) && depth == 0 {
            return count;
        }
        depth = pairing.depth_behind(depth, &spot.place);
        count += 1;
    }
    count
}

/// The number of these places after the last one that is wanted.
#[tactic(auto, using(crate::proofs::Backward::last_first))]
fn distance_backward(pairing: Pairing, spots: &[Spot]) -> usize
    requires few { length spots.now < 2 ^ 63 }
    ensures { result
        ≡ places.distance (is_wanted pairing) (goes_deeper pairing) (comes_back pairing) 0
        (reverse spots.now) }
{
    let mut depth = 0;
    let mut count = 0;
    let mut rest = spots;
    while let [before @ .., spot] = rest {
        if pairing.wants(&spot.place) && depth == 0 {
            return count;
        }
        depth = pairing.depth_behind(depth, &spot.place);
        count += 1;
        rest = before;
    }
    count
}

/// How many phrases without DO these places begin with.
fn phrases_onward(spots: &[Spot]) -> usize
    requires few { length spots.now < 2 ^ 63 }
    ensures phrases { result ≡ places.bare_phrases spots.now }
    ensures within { result ≤ length spots.now }
{
    let mut count = 0;
    for spot in spots {
        if !controls_next_place(&spot.place) {
            return count;
        }
        count += 1;
    }
    count
}

/// How many phrases without DO these places end with.
#[tactic(auto, using(crate::proofs::Backward::last_first))]
fn phrases_backward(spots: &[Spot]) -> usize
    requires few { length spots.now < 2 ^ 63 }
    ensures { result ≡ places.bare_phrases (reverse spots.now) }
{
    let mut count = 0;
    let mut rest = spots;
    while let [before @ .., spot] = rest {
        if !controls_next_place(&spot.place) {
            return count;
        }
        count += 1;
        rest = before;
    }
    count
}

fn later(pairing: Pairing, spots: &[Spot], i: usize) -> usize
    requires there { i < length spots.now }
    requires few { length spots.now < 2 ^ 63 }
    ensures later { result
        ≡ places.later spots.now (is_wanted pairing) (goes_deeper pairing) (comes_back pairing) i }
    ensures within { result ≤ length spots.now }
{
    i + 1 + distance_onward(pairing, &spots[i + 1..])
}

fn earlier(pairing: Pairing, spots: &[Spot], i: usize) -> usize
    requires there { i < length spots.now }
    requires few { length spots.now < 2 ^ 63 }
    ensures earlier { result
        ≡ places.earlier spots.now (is_wanted pairing) (goes_deeper pairing)
        (comes_back pairing) i }
    ensures within { result ≤ i }
{
    let distance = distance_backward(pairing, &spots[..i]);
    i.saturating_sub(1).saturating_sub(distance)
}

/// Whether the place directly before place i is a phrase without DO.
fn is_controlled(spots: &[Spot], i: usize) -> bool
    ensures { result ≡ places.is_before spots.now places.controls_next_place i }
{
    if i == 0 {
        return false;
    }
    match spots.get(i - 1) {
        Some(spot) => controls_next_place(&spot.place),
        None => false,
    }
}

fn next_place(spots: &[Spot], i: usize) -> usize
    requires few { i < 2 ^ 63 }
    ensures { result ≡ places.next_place spots.now i }
{
    if is_controlled(spots, i) {
        i.saturating_sub(1)
    } else {
        i + 1
    }
}

fn behind_always(spots: &[Spot], i: usize) -> usize
    requires there { i < length spots.now }
    requires few { length spots.now < 2 ^ 63 }
    ensures { result ≡ places.behind_always spots.now i }
{
    let start = earlier(Pairing::StartOfIf, spots, i);
    if is_controlled(spots, start) {
        start.saturating_sub(1)
    } else {
        i + 1
    }
}

fn behind_false(spots: &[Spot], i: usize) -> usize
    requires there { i < length spots.now }
    requires few { length spots.now < 2 ^ 63 }
    ensures { result ≡ places.behind_false spots.now i }
{
    let end = later(Pairing::BranchEnd, spots, i);
    match spots.get(end) {
        Some(spot) => { if is_else(&spot.place) { end + 1 } else { end } }
        None => end,
    }
}

fn last_place(spots: &[Spot], i: usize) -> usize
    requires few { length spots.now < 2 ^ 63 }
    requires within { i ≤ length spots.now }
    ensures last { result ≡ places.last_place spots.now i }
    ensures within { result ≤ length spots.now }
{
    let Some(spot) = spots.get(i) else {
        return i;
    };
    if is_if(&spot.place) {
        later(Pairing::EndOfIf, spots, i)
    } else if is_do(&spot.place) {
        later(Pairing::EndOfDo, spots, i)
    } else {
        i
    }
}

/// The place that the chain of the phrase at i controls.
fn controlled_place(spots: &[Spot], i: usize) -> usize
    requires there { i < length spots.now }
    requires few { length spots.now < 2 ^ 63 }
    ensures controlled { result ≡ places.controlled_place spots.now i }
    ensures within { result ≤ length spots.now }
{
    i + phrases_onward(&spots[i..])
}

fn behind_loop(spots: &[Spot], i: usize) -> usize
    requires there { i < length spots.now }
    requires few { length spots.now < 2 ^ 63 }
    ensures { result ≡ places.behind_loop spots.now i }
{
    if is_controlled(spots, i) {
        i.saturating_sub(1)
    } else {
        last_place(spots, controlled_place(spots, i)) + 1
    }
}

fn resets_before(place: &Place) -> Resets
    ensures { result ≡ places.resets_before place.now }
{
    match place {
        Place::Looping(Looping::Find) => Resets::Found,
        Place::Looping(Looping::Gather(_)) => Resets::Statistics,
        _ => Resets::Nothing,
    }
}

fn phrase_resets(spots: &[Spot], i: usize) -> Resets
    requires there { i < length spots.now }
    requires few { length spots.now < 2 ^ 63 }
    ensures { result ≡ places.phrase_resets spots.now i }
{
    if is_controlled(spots, i) {
        return Resets::Nothing;
    }
    match spots.get(controlled_place(spots, i)) {
        Some(spot) => resets_before(&spot.place),
        None => Resets::Nothing,
    }
}

fn next_of(spots: &[Spot], i: usize, place: &Place) -> usize
    requires there { i < length spots.now }
    requires few { length spots.now < 2 ^ 63 }
    ensures { result ≡ places.next_of spots.now i place.now }
{
    match place {
        Place::Branch(Branch::If(_))
        | Place::Looping(Looping::For(_))
        | Place::Looping(Looping::Find) => i + 1,
        Place::Branch(Branch::Else) => later(Pairing::BranchEnd, spots, i),
        Place::Branch(Branch::Always) => behind_always(spots, i),
        Place::Looping(Looping::Loop) => earlier(Pairing::StartOfDo, spots, i),
        _ => next_place(spots, i),
    }
}

fn place_ways(spots: &[Spot], i: usize, place: &Place) -> Ways
    requires there { i < length spots.now }
    requires few { length spots.now < 2 ^ 63 }
    ensures { result ≡ places.ways_of spots.now i place.now }
{
    let next = next_of(spots, i, place);
    let plain = Ways {
        next,
        exit: 0,
        chain: 0,
        resets: Resets::Nothing,
    };
    match place {
        Place::Branch(Branch::If(_)) => Ways {
            exit: behind_false(spots, i),
            ..plain
        },
        Place::Looping(Looping::For(_)) => Ways {
            exit: behind_loop(spots, i),
            resets: phrase_resets(spots, i),
            ..plain
        },
        Place::Looping(Looping::Find) => Ways {
            chain: phrases_backward(&spots[..i]),
            ..plain
        },
        _ => plain,
    }
}

/// The ways on from each place of a section. A section within the language's limits is gone through
/// a bounded number of times: as often as IFs and FOR phrases may be open at once.
pub(crate) fn section_ways(alloc: Global, spots: &[Spot]) -> Result<Vec<Ways>, AllocError>
    requires few { length spots.now < 2 ^ 63 }
    ensures { IfOk result (λ v. v.items ≡ places.section_ways spots.now) }
{
    let mut all = Vec::new(alloc);
    for spot in spots {
        all.push(place_ways(spots, all.len(), &spot.place))?;
    }
    Ok(all)
}
