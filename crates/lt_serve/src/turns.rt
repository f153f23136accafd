//! The loop over the pieces of the source.

ghost use Rattle.std.specs.Prelude.{◌≡◌, ◌⊎◌, ℕ, ◌<◌, ◌≤◌, true, []};
ghost use Rattle.std.specs.Prelude.{length, take, IfErr, IfOk, IsErrOf, Ok, OnOk, Some};
ghost use Rattle.lt_terms.specs.Causes.{next_count};
ghost use Rattle.lt_language.specs.Machine.{State};
ghost use Rattle.lt_line.specs.Waiting.{nothing_waits};
ghost use Rattle.lt_store.specs.Promise.{AtRest, StopsOpening, seen_on};
ghost use Rattle.lt_store.specs.Open.{IsOpen, blocks_of, extents_of};
ghost use Rattle.lt_serve.specs.Calls.{StopsGetOf, TurnActs};
ghost use Rattle.lt_serve.specs.Faults.{IsEnd, IsStepEnd, IsTurnEnd};
ghost use Rattle.lt_serve.specs.Promise.{FailsToOpen, FoundByGet, GivesTo, IsCaused, IsUnopened, ServesFrom};
ghost use Rattle.lt_serve.specs.Promise.{ServesSeen, TakesFrom};
ghost use Rattle.lt_serve.specs.Seeing.{SeesEndOfInput, ServesAsSeen, StepsOn, StepsOver, TakesOn, TakesOver};
ghost use Rattle.lt_serve.specs.Serving.{EndsInput, IsReady};
ghost use Rattle.lt_terms.specs.Bytes.{Image};
ghost use Rattle.lt_image.specs.Versions.{Opened, open_image};
ghost use Rattle.lt_store.specs.Getting.{seen_of};
ghost use Rattle.lt_serve.specs.View.{kept_in, store_in};

use crate::sending::emit;
use crate::served::{Served, served_of, unopened_of};
use crate::session::Session;
use lt_device::Device;
use lt_io::{Sink, Source};
use lt_line::Replies;
use lt_page::{Failed, Page};
use std::alloc::Global;

/// How many nonempty pieces one run may take.
const TURNS: u64 = 1 << 48;

/// Makes a round and gives its replies to the sink. Answers how many bytes it took. The first fault
/// decides.
fn step<D: Device, K: Sink>(
    session: &mut Session,
    alloc: Global,
    device: &mut D,
    replies: &mut Replies,
    sink: &mut K,
    piece: &[u8],
) -> Result<usize, Served>
    requires ready { IsReady session.old replies.old (D.blocks device.old) }

    ensures on { IfOk result (λ n. StepsOn D.Device K.Sink session.old session.new
        (take n piece.now)
        sink.old sink.new device.old device.new) }
    ensures over { IfErr result (λ status. length piece.now ≤ 4096
        → StepsOver D.Device K.Sink session.old status piece.now sink.old sink.new device.old device.new) }
    ensures taken { IfOk result (λ n. (n ≤ length piece.now) × (0 < length piece.now → 0 < n)) }
    ensures ready { OnOk result (IsReady session.new replies.new (D.blocks device.new)) }
    ensures halt { IfErr result IsStepEnd }
    ensures device { TurnActs D.Device session.old session.new result device.old device.new }
    ensures sink { GivesTo K.Sink (IsErrOf result Served.Sink) sink.old sink.new }
{
    match session.round(alloc, device, piece, replies) {
        Ok(taken) => match emit(sink, replies) {
            Ok(()) => Ok(taken),
            Err(Failed) => Err(Served::Sink),
        },
        Err(fault) => {
            // What is settled is shown all the same.
            let _ = emit(sink, replies);
            Err(served_of(fault))
        }
    }
}

/// Serves the lines of a piece.
fn serve_piece<D: Device, K: Sink>(
    session: &mut Session,
    alloc: Global,
    device: &mut D,
    replies: &mut Replies,
    sink: &mut K,
    piece: &[u8],
) -> Result<(), Served>
    requires ready { IsReady session.old replies.old (D.blocks device.old) }
    requires short { length piece.now ≤ 4096 }

    ensures on { OnOk result (StepsOn D.Device K.Sink session.old session.new piece.now
        sink.old sink.new device.old device.new) }
    ensures over { IfErr result (λ status. StepsOver D.Device K.Sink session.old status piece.now
        sink.old sink.new device.old device.new) }
    ensures ready { OnOk result (IsReady session.new replies.new (D.blocks device.new)) }
    ensures halt { IfErr result IsStepEnd }
    ensures device { TurnActs D.Device session.old session.new result device.old device.new }
    ensures sink { GivesTo K.Sink (IsErrOf result Served.Sink) sink.old sink.new }
{
    let mut at = 0;
    while at < piece.len() {
        at += step(session, alloc, device, replies, sink, &piece[at..])?;
    }
    Ok(())
}

/// At the end of input bytes after the last line feed are refused.
fn finish<K: Sink>(session: &mut Session, replies: &mut Replies, sink: &mut K) -> Served
    requires up { session.old.is_up ≡ true }
    requires none { replies.old ≡ nothing_waits }

    ensures over { EndsInput K.Sink session.old result sink.old sink.new }
    ensures ends { SeesEndOfInput K.Sink session.old result sink.old sink.new }
    ensures end { IsEnd result }
    ensures sink { GivesTo K.Sink (result ≡ Served.Sink) sink.old sink.new }
{
    session.end(replies);
    replies.settle();
    match emit(sink, replies) {
        Ok(()) => Served::Done,
        Err(Failed) => Served::Sink,
    }
}

/// Takes one piece and serves it. `Err` is the answer where serving is over.
fn turn<S: Source, K: Sink, D: Device>(
    session: &mut Session,
    alloc: Global,
    source: &mut S,
    sink: &mut K,
    device: &mut D,
    replies: &mut Replies,
    page: &mut Page,
) -> Result<(), Served>
    requires ready { IsReady session.old replies.old (D.blocks device.old) }

    ensures on { OnOk result (TakesOn S.Source K.Sink D.Device session.old session.new
        source.old source.new sink.old sink.new device.old device.new) }
    ensures over { IfErr result (λ status. TakesOver S.Source K.Sink D.Device session.old status
        source.old source.new sink.old sink.new device.old device.new) }
    ensures ready { OnOk result (IsReady session.new replies.new (D.blocks device.new)) }
    ensures end { IfErr result IsTurnEnd }
    ensures pieces { OnOk result (S.pieces source.new ≡ next_count (S.pieces source.old)) }
    ensures one_piece { S.pieces source.new ≤ next_count (S.pieces source.old) }
    ensures source { TakesFrom S.Source (IsErrOf result Served.Source) source.old source.new }
    ensures sink { GivesTo K.Sink (IsErrOf result Served.Sink) sink.old sink.new }
    ensures device { TurnActs D.Device session.old session.new result device.old device.new }
{
    let n = match source.read(page) {
        Ok(n) => n,
        Err(Failed) => return Err(Served::Source),
    };
    if n == 0 {
        return Err(finish(session, replies, sink));
    }
    serve_piece(session, alloc, device, replies, sink, &page.bytes()[..n])
}

/// Serves the lines of the source by a session in which no line was begun.
fn serve_open<S: Source, K: Sink, D: Device>(
    alloc: Global,
    session: &mut Session,
    source: &mut S,
    sink: &mut K,
    device: &mut D,
) -> Served
    requires up { session.old.is_up ≡ true }
    requires within { blocks_of (store_in session.old) ≤ D.blocks device.old }
    requires none { kept_in session.old ≡ [] }

    ensures over { (before : State) → IsOpen (store_in session.old) before (D.state device.old)
        → ServesFrom S.Source K.Sink D.Device (extents_of (store_in session.old)) before result
        source.old source.new sink.old sink.new device.old device.new }
    ensures seen { ServesAsSeen S.Source K.Sink D.Device (seen_of (store_in session.old)) result
        source.old source.new sink.old sink.new device.old }
    ensures damaged { (b : ℕ) → result ≡ Served.Damaged b
        → StopsGetOf (store_in session.old) b (D.state device.new) }
    ensures causes { IsCaused S.Source K.Sink D.Device result source.old source.new sink.old sink.new
        device.old device.new }
{
    let Ok(mut page) = Page::new(alloc) else {
        return Served::NoMemory;
    };
    let Ok(mut replies) = Replies::new(alloc) else {
        return Served::NoMemory;
    };
    for number in 0..TURNS {
        if let Err(served) = turn(
            session,
            alloc,
            source,
            sink,
            device,
            &mut replies,
            &mut page,
        ) {
            return served;
        }
    }
    Served::Turns
}

/// Serves a store: opens it, and answers the lines of the source to the sink, a piece at a time.
///
/// A put or a delete is answered `OK` once it outlives a power cut. The first fault decides the answer;
/// `Done` says that the source was read to its end.
pub fn serve<S: Source, K: Sink, D: Device>(
    alloc: Global,
    source: &mut S,
    sink: &mut K,
    device: &mut D,
) -> Served
    // On a device at rest: the answers are a map's, nothing that was acknowledged is lost at any moment, and no
    // block is damaged.
    ensures over { (before : State) (r : AtRest before (D.state device.old))
        → ServesFrom S.Source K.Sink D.Device r.named.manifest.header.extents before result
        source.old source.new sink.old sink.new device.old device.new }

    // On any device a damaged block is one at which opening stops, and then nothing was read, written or answered,
    // or one at which a get stops.
    ensures damaged { (b : ℕ) → result ≡ Served.Damaged b
        → (StopsOpening (D.state device.old) b × (D.state device.new ≡ D.state device.old)
        × (source.new ≡ source.old) × (sink.new ≡ sink.old))
        ⊎ FoundByGet (D.state device.old) b (D.state device.new) }
    // And where opening stops at a block nothing is served: the answer is that block, or the device failed, or
    // memory was short.
    ensures unopened { (b : ℕ) → FailsToOpen (D.state device.old) b
        → IsUnopened b result × (D.state device.new ≡ D.state device.old)
        × (source.new ≡ source.old) × (sink.new ≡ sink.old) }
    // On any device that opens, up to the first write that is taken: a get is answered by what the blocks tell of its
    // key, and so stops at a damaged bucket.
    ensures seen { (image : Image) (opened : Opened) → (D.state device.old).shown ≡ Some image
        → open_image image ≡ Ok opened
        → ServesSeen (seen_on opened image) result (S.left source.old) (S.left source.new)
        (K.stands sink.old) (K.stands sink.new) }
    ensures causes { IsCaused S.Source K.Sink D.Device result source.old source.new sink.old sink.new
        device.old device.new }
{
    match Session::open(alloc, device) {
        Ok(mut session) => serve_open(alloc, &mut session, source, sink, device),
        Err(fault) => unopened_of(fault),
    }
}
