//! Rounds: the lines of a piece are acted as one group of writes.

ghost use Rattle.std.specs.Prelude.{◌≡◌, ℕ, ◌<◌, ◌≤◌, None, true, false, []};
ghost use Rattle.std.specs.Prelude.{length, take, IfErr, IfOk, IsErrOf, OnErr, OnOk};
ghost use Rattle.lt_line.specs.Waiting.{all_settled};
ghost use Rattle.lt_store.specs.Open.{blocks_of};
ghost use Rattle.lt_serve.specs.Acting.{AnswersHeld, FailsWhereOpen};
ghost use Rattle.lt_serve.specs.Calls.{RoundActs};
ghost use Rattle.lt_serve.specs.Outcomes.{most_text};
ghost use Rattle.lt_serve.specs.Rounds.{BeginsRound, IsActing, ServesLines, StopsInLines, TakesFront, all_text};
ghost use Rattle.lt_serve.specs.Seeing.{AnswersFurther, AnswersLines, EndsFurther, FailsInLines, RoundFails};
ghost use Rattle.lt_serve.specs.Seeing.{RoundSees, StopsHeld, TellsHeld};
ghost use Rattle.lt_serve.specs.View.{kept_in, store_in};

use crate::acting::act_command;
use crate::faults::RoundFault;
use crate::session::Session;
use lt_device::Device;
use lt_line::Replies;
use lt_page::Failed;
use std::alloc::Global;

/// The text of a reply has at most so many bytes.
const REPLY_ROOM: usize = 3007;

impl Session {
    /// Acts the lines of a piece, makes their writes durable and settles their replies. Answers how many
    /// bytes it took: all of the piece, unless fewer than 3,007 bytes of room are left behind the replies.
    ///
    /// No reply is settled before the writes that were taken before it are durable. Text that waited
    /// before the round is settled with it. Where a round fails, all lines before the one that failed
    /// were acted, the replies before their first write that was taken are settled, all others are
    /// dropped, and the session is over.
    pub fn round<D: Device>(
        &mut self,
        alloc: Global,
        device: &mut D,
        piece: &[u8],
        out: &mut Replies,
    ) -> Result<usize, RoundFault>
        requires up { self.old.is_up ≡ true }
        requires within { blocks_of (store_in self.old) ≤ D.blocks device.old }
        requires room { most_text ≤ out.old.room }

        // On the device that the session is open for.
        ensures ok { IfOk result (λ n. ServesLines D.Device self.old self.new (take n piece.now)
            out.old out.new device.old device.new) }
        ensures err { IfErr result (λ fault. StopsInLines D.Device self.old self.new piece.now fault
            (all_settled out.old) out.new device.old device.new) }

        // On any device that tells its blocks, up to the first write that is taken: a get is answered by what the
        // blocks tell of its key, and so stops at a damaged bucket.
        ensures sees { IfOk result (λ n. RoundSees D.Device self.old self.new (take n piece.now)
            out.old out.new device.old device.new) }
        ensures fails { IfErr result (λ fault. RoundFails D.Device self.old piece.now fault
            (all_text out.old) out.new device.old) }

        // On any device.
        ensures taken { IfOk result (λ n. TakesFront n piece.now out.new.room) }
        ensures settled { out.new.pending_text ≡ [] }
        ensures up { OnOk result (self.new.is_up ≡ true) }
        ensures over { OnErr result (self.new.is_up ≡ false) }
        ensures device { RoundActs D.Device self.old self.new result device.old device.new }
    {
        self.is_up = false;
        self.wrote = false;
        out.settle();
        let taken = match self.act_all(alloc, device, piece, out) {
            Ok(taken) => taken,
            Err(fault) => {
                out.drop_unsettled();
                return Err(fault);
            }
        };
        let committed = self.store.commit(device);
        match committed {
            Ok(()) => {}
            Err(Failed) => {
                out.drop_unsettled();
                return Err(RoundFault::Device);
            }
        }
        out.settle();
        self.is_up = true;
        Ok(taken)
    }

    /// Acts the lines of a piece as long as there is room for a reply. Answers how many bytes it took.
    fn act_all<D: Device>(
        &mut self,
        alloc: Global,
        device: &mut D,
        piece: &[u8],
        out: &mut Replies,
    ) -> Result<usize, RoundFault>
        requires begun { BeginsRound self.old out.old }
        requires within { blocks_of (store_in self.old) ≤ D.blocks device.old }
        requires room { most_text ≤ out.old.room }

        ensures ok { IfOk result (λ n. AnswersLines D.Device self.old self.new (take n piece.now)
            out.old out.new device.old device.new) }
        ensures err { IfErr result (λ fault. FailsInLines D.Device self.old self.new piece.now fault
            out.old out.new device.old device.new) }
        ensures taken { IfOk result (λ n. TakesFront n piece.now out.new.room) }
        ensures down { self.new.is_up ≡ false }
        ensures acting { OnOk result (IsActing self.new) }
        ensures device { RoundActs D.Device self.old self.new result device.old device.new }
    {
        let mut at = 0;
        while at < piece.len() && out.room() >= REPLY_ROOM {
            at += self.advance(alloc, device, &piece[at..], out)?;
        }
        Ok(at)
    }

    /// Takes bytes up to the end of the line, or all, acts the line where it ended, and answers their
    /// number.
    fn advance<D: Device>(
        &mut self,
        alloc: Global,
        device: &mut D,
        piece: &[u8],
        out: &mut Replies,
    ) -> Result<usize, RoundFault>
        requires acting { IsActing self.old }
        requires some { 0 < length piece.now }
        requires within { blocks_of (store_in self.old) ≤ D.blocks device.old }
        requires room { most_text ≤ out.old.room }

        ensures ok { IfOk result (λ n. AnswersFurther D.Device self.old self.new (take n piece.now)
            out.old out.new device.old device.new) }
        ensures err { IfErr result (λ fault. EndsFurther D.Device self.old self.new piece.now fault
            out.old out.new device.old device.new) }
        ensures within { IfOk result (λ n. n ≤ length piece.now) }
        ensures some { IfOk result (λ n. 0 < n) }
        ensures down { self.new.is_up ≡ false }
        ensures acting { OnOk result (IsActing self.new) }
        ensures device { RoundActs D.Device self.old self.new result device.old device.new }
    {
        let taken = self.lines.feed(piece);
        if self.lines.ready() {
            self.answer(alloc, device, out)?;
        }
        Ok(taken)
    }

    /// Acts the line that stands ready. Its reply is settled as long as no write was taken.
    fn answer<D: Device>(
        &mut self,
        alloc: Global,
        device: &mut D,
        out: &mut Replies,
    ) -> Result<(), RoundFault>
        requires down { self.old.is_up ≡ false }
        requires up { self.old.store.is_up ≡ true }
        requires still { (store_in self.old).work.job ≡ None }
        requires ready { self.old.lines.is_ended ≡ true }
        requires within { blocks_of (store_in self.old) ≤ D.blocks device.old }
        requires room { most_text ≤ out.old.room }

        ensures ok { OnOk result (AnswersHeld D.Device self.old self.new out.old out.new device.old device.new) }
        ensures err { IfErr result (λ fault. FailsWhereOpen D.Device (store_in self.old) fault device.old device.new) }
        ensures tells { OnOk result (TellsHeld D.Device self.old self.new out.old out.new device.old device.new) }
        ensures stops { (b : ℕ) → IsErrOf result (RoundFault.Damaged b)
            → StopsHeld D.Device self.old device.old b }
        ensures untold { OnErr result ((out.new ≡ out.old) × (self.new.lines ≡ self.old.lines)) }
        ensures next { OnOk result (kept_in self.new ≡ []) }
        ensures down { self.new.is_up ≡ false }
        ensures acting { OnOk result (IsActing self.new) }
        ensures device { RoundActs D.Device self.old self.new result device.old device.new }
    {
        let command = self.lines.command();
        let taken = act_command(
            &mut self.store,
            alloc,
            device,
            &command,
            &mut self.value,
            out,
        )?;
        self.lines.next();
        self.wrote |= taken;
        if !self.wrote {
            out.settle();
        }
        Ok(())
    }
}
