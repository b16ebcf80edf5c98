//! The requests of an editor, answered by the debugger.
ghost use Rattle.std.specs.Prelude.{◌≡◌, ◌<◌, ◌^◌, Some, None, option_map, IfOk};
ghost use Rattle.ss_serve.specs.Meaning.{IsAnswer};
ghost use Rattle.ss_messages.specs.Counting.{from_one};
ghost use Rattle.ssdap.specs.Editing.{editor_meaning, editing_state, counting_after, go_behind, IsOpened};
ghost use Rattle.ssdap.specs.Editing.{IsElsewhere, IsTurned, source_path};
ghost use Rattle.ssdap.specs.Shelves.{Given};

use crate::shelf::Shelf;
use ss_adapter::{Further, Launched, Opening, launch, turn_before, turn_elsewhere};
use ss_console::Go;
use ss_messages::{Command, Counting, Post, Request, Source, Text};
use ss_serve::Answerer;
use std::alloc::{AllocError, Global};
use std::mem;

/// The adapter, which answers the requests of an editor: before a run is launched, and about that
/// run.
#[derive(Drop)]
pub struct Adapter<'a, F: Shelf> {
    shelf: &'a F,
    counting: Counting,
    run: Option<Launched>,
}

impl<'a, F: Shelf> Adapter<'a, F> {
    /// No run is launched, and the editor counts from 1 on.
    pub fn new(shelf: &'a F) -> Self
        ensures shelf { result.shelf.now ≡ shelf.now }
        ensures counting { result.counting ≡ from_one }
        ensures run { result.run ≡ None }
    {
        Adapter {
            shelf,
            counting: Counting::from_one(),
            run: None,
        }
    }

    /// Lets the run go, if one was launched.
    pub fn close(self) {
        let_go(self.run);
    }
}

/// Lets a run go, if there is one.
fn let_go(run: Option<Launched>) {
    if let Some(run) = run {
        run.end();
    }
}

/// The bytes of the data; none if no path is named. `None` if they can't be read.
fn data_at<F: Shelf>(
    alloc: Global,
    shelf: &F,
    path: &Option<Text>,
) -> Result<Option<Vec<u8>>, AllocError>
    ensures { IfOk result
        (λ bytes. Given (F.files shelf.now) path.now (option_map (λ b. b.items) bytes)) }
{
    match path {
        Some(path) => shelf.bytes_at(path.as_slice()),
        None => Ok(Some(Vec::new(alloc))),
    }
}

/// How the editor counts after a request.
fn counting_after(counting: Counting, command: &Command) -> Counting
    ensures { result ≡ counting_after counting command.now }
{
    match command {
        Command::Initialize(said) => *said,
        _ => counting,
    }
}

/// Reads the files of launch and opens the run of the model over the data; answers launch.
fn open<F: Shelf>(
    shelf: &F,
    request: &Request,
    post: &mut Post,
    opening: Opening<'_>,
    data_path: &Option<Text>,
) -> Result<Option<Launched>, AllocError>
    requires { post.old.sent < 2 ^ 53 }
    ensures { IfOk result (λ run. IsOpened (F.files shelf.now) request.now
        opening.entry.source.path.now data_path.now opening.entry.source.counting
        opening.entry.stops post.old post.new run) }
{
    let Some(model) = shelf.bytes_at(opening.source.path)? else {
        post.fail(request, b"cannot read the model")?;
        return Ok(None);
    };
    let Some(text) = data_at(post.alloc(), shelf, data_path)? else {
        post.fail(request, b"cannot read the data")?;
        return Ok(None);
    };
    launch(request, post, opening, &model, &text)
}

/// Whether a session goes on.
fn go_behind(further: Further) -> Go
    ensures { result ≡ go_behind further }
{
    match further {
        Further::On => Go::On,
        Further::Ended => Go::Quit,
    }
}

/// Answers a request before a run is launched, of an editor that counts so; launch leaves the run that
/// it opens.
#[tactic(auto, using(crate::proofs::Openings::firsts), unfolding(crate::specs::Editing::AnswersBefore))]
fn answer_before<F: Shelf>(
    shelf: &F,
    counting: Counting,
    run: &mut Option<Launched>,
    request: &Request,
    post: &mut Post,
) -> Result<Go, AllocError>
    requires none { run.old ≡ None }
    requires room { post.old.sent < 2 ^ 53 }
    ensures { IfOk result (λ go. IsAnswer editor_meaning
        (editing_state (F.files shelf.now) (F.same shelf.now) counting None)
        (editing_state (F.files shelf.now) (F.same shelf.now)
        (counting_after counting request.now.command) run.new)
        request.now post.old post.new go) }
{
    match &request.command {
        Command::Launch(path, data_path, stops) => {
            let path = path.as_slice();
            let opening = Opening {
                source: Source { path, counting },
                stops: *stops,
            };
            let opened = open(shelf, request, post, opening, data_path)?;
            let_go(mem::replace(run, opened));
            Ok(Go::On)
        }
        _ => Ok(go_behind(turn_before(request, post)?)),
    }
}

/// The path of the source that a request speaks of.
fn source_path(command: &Command) -> Option<&[u8]>
    ensures { option_map (λ path. path.now) result ≡ source_path command.now }
{
    match command {
        Command::SetBreakpoints(Some(path), _) => Some(path.as_slice()),
        Command::GotoTargets(Some(path), _) => Some(path.as_slice()),
        _ => None,
    }
}

/// Whether the file at a path is another than the model; no path is the model.
fn is_elsewhere<F: Shelf>(shelf: &F, run: &Launched, path: Option<&[u8]>) -> bool
    ensures { IsElsewhere (F.same shelf.now) run.now.desk.path (option_map (λ p. p.now) path.entry) result }
{
    match path {
        Some(path) => !shelf.is_same(run.path(), path),
        None => false,
    }
}

/// Answers a request about a run; one that speaks of a file other than the model is not heeded.
#[tactic(auto, using(crate::proofs::Openings::turned))]
fn answer_about_run<F: Shelf>(
    shelf: &F,
    run: &mut Launched,
    request: &Request,
    post: &mut Post,
) -> Result<Go, AllocError>
    requires { post.old.sent < 2 ^ 53 }
    ensures { IfOk result (λ go. IsTurned (F.same shelf.now) run.old run.new
        request.now post.old post.new go) }
{
    if is_elsewhere(shelf, run, source_path(&request.command)) {
        return Ok(go_behind(turn_elsewhere(request, post)?));
    }
    Ok(go_behind(run.turn(request, post)?))
}

impl<F: Shelf> Answerer for Adapter<'_, F> {
    ghost meaning = { editor_meaning };

    ghost state = { λ a. editing_state (F.files a.shelf.now) (F.same a.shelf.now) a.counting a.run };

    #[tactic(auto, using(crate::proofs::Openings::answered))]
    fn answer(&mut self, request: &Request, post: &mut Post) -> Result<Go, AllocError> {
        let counting = self.counting;
        self.counting = counting_after(counting, &request.command);
        if let Some(run) = &mut self.run {
            return answer_about_run(self.shelf, run, request, post);
        }
        answer_before(self.shelf, counting, &mut self.run, request, post)
    }
}
