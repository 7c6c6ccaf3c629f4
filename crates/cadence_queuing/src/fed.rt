//! A stage that one worker feeds, with a log of the lines that it was given. It exists in proofs only.
ghost use Rattle.std.specs.Option.{ok_or};
ghost use Rattle.std.specs.Prelude.{◌≡◌, [], ◌∷◌, ◌++◌, map, string_bytes};
ghost use mathlib.Core.List.{IsPrefix};
ghost use Rattle.cadence_stage.specs.Call.{Flush, Line, call_of};
ghost use Rattle.cadence_stage.specs.Kept.{IsStep};
ghost use Rattle.cadence_stage.specs.Past.{lines_in, taken_in};

use cadence_errors::SinkError;
use cadence_stage::{Entry, Log, Names, Right, Seen, Stage};
use std::alloc::Allocator;
use std::marker::PhantomData;

/// What a sink that a worker feeds begins with, for proofs alone: an empty log of the lines that it was given, and what
/// was taken from the queue, which is nothing yet.
#[derive(Drop)]
pub struct FedLogs<A: Allocator> {
    pub fed: Log<Entry>,
    pub from: Seen<String<A>>,
    pub ghost none: { (fed.items ≡ []) × (from.items ≡ []) },
}

/// A stage that one worker feeds. Nobody else can give it a line, because that takes the right of its log, and the worker
/// has that one. So three facts are true of it whenever its lock is free: its log is the one that its type names
/// (`names`); it took just those lines of the log which it answered with a number (`taken`); and the lines of the log
/// are the first ones that were taken from the queue, in order (`begins`). It has no `Drop`, so that its owner has to flush
/// it in the end, by `finish`.
pub struct FedStage<S: Stage, A: Allocator, J: Names> {
    stage: S,
    fed: Log<Entry>,
    from: Seen<String<A>>,
    of: PhantomData<J>,
    pub ghost names: { (fed.name ≡ J.names.fed) × (from.name ≡ J.names.taken) },
    pub ghost taken: { S.taken stage ≡ taken_in (map call_of fed.items) },
    pub ghost begins: { ∥ IsPrefix (lines_in (map call_of fed.items))
        (map string_bytes from.items) ∥₁ },
}

impl<S: Stage, A: Allocator, J: Names> FedStage<S, A, J> {
    ghost use Rattle.cadence_queuing.specs.Fed.{calls_of, fed_stage, texts_seen};

    /// Keeps a stage that took no line yet.
    pub(crate) fn new(stage: S, logs: FedLogs<A>) -> Self
        requires names { (logs.fed.name ≡ J.names.fed) × (logs.from.name ≡ J.names.taken) }
        requires none { S.taken stage ≡ [] }
    {
        let FedLogs { fed, from } = logs;
        FedStage {
            stage,
            fed,
            from,
            of: PhantomData,
        }
    }

    /// Gives the stage a line, by the right of its worker. It is the next one of those that were taken from the queue.
    #[inline(always)]
    pub(crate) fn take_line(
        &mut self,
        feed: &mut Right<Entry>,
        line: &str,
        from: Seen<String<A>>,
        fault: &mut SinkError,
    ) -> Option<usize>
        requires names { (feed.old.name ≡ J.names.fed) × (from.name ≡ J.names.taken) }
        requires next { ∥ IsPrefix (lines_in (map call_of feed.old.items) ++ line.now ∷ [])
            (map string_bytes from.items) ∥₁ }
        ensures name { feed.new.name ≡ J.names.fed }
        ensures fed { map call_of feed.new.items
            ≡ map call_of feed.old.items ++ Line line.now (ok_or result fault.new) ∷ [] }
    {
        let taken = self.stage.take_line(line, fault);
        let entry = Entry::of_line(line, taken, fault);
        self.fed.note(feed, &entry);
        self.from = from;
        taken
    }

    /// Flushes the stage.
    pub(crate) fn empty(&mut self, fault: &mut SinkError) -> Option<()>
        ensures step { S.step (fed_stage self.old) (fed_stage self.new)
            (Flush (ok_or result fault.new)) }
        ensures same { calls_of self.new ≡ calls_of self.old }
    {
        self.stage.empty(fault)
    }

    /// The right of the worker says which lines the stage was given. The call changes nothing.
    pub(crate) fn meets(&mut self, feed: &mut Right<Entry>)
        requires { feed.old.name ≡ J.names.fed }
        ensures fed { calls_of self.new ≡ map call_of feed.old.items }
        ensures same { feed.new ≡ feed.old }
    {
        self.fed.meets(feed);
    }

    /// Returns what is known of the queue: the lines that the stage was given were taken first, in order.
    pub(crate) fn seen(&mut self) -> Seen<String<A>>
        ensures name { result.name ≡ J.names.taken }
        ensures items { result.items ≡ texts_seen self.new }
    {
        self.from.again()
    }

    /// Flushes the stage, and ends it. After an error, the rest is lost.
    pub(crate) fn finish(self) -> Result<(), SinkError>
        ensures { IsStep S.step (Flush result) }
    {
        let FedStage {
            mut stage,
            fed: _,
            from: _,
            of: _,
        } = self;
        stage.send_rest()
    }
}
