// Where a run reads from and writes to.
ghost use Rattle.std.specs.Prelude.{◌≡◌, ℕ, ◌<◌, ◌≤◌, List, length, take, drop, Option, IfOk, OnOk, OnErr, MatchResult};
ghost use Rattle.std.specs.Io.KnownBytes.{Appends, ReadConsumes, WriteAppends};
ghost use Rattle.hg_base.specs.Outside.{HasCause, AppendsPrefix};

use super::fault::Failed;

/// Where bytes come from. A source counts its faults; the count never falls, and stands still at
/// the greatest `u64`.
pub trait Source {
    // the bytes that are left, where the source tells them
    ghost left: { Self → Option (List ℕ) };

    // how many reads have failed
    ghost faults: { Self → ℕ };

    /// Moves the next bytes to the front of `into` and answers how many; the rest of `into` stays.
    /// Ok(0) for a slice that isn't empty is the end of the input.
    ///
    /// Failed comes only where the count of faults rose in this call, or stands at its end. It
    /// moves no byte.
    fn read(&mut self, into: &mut [u8]) -> Result<usize, Failed>
        ensures bound { IfOk result (λ n. n ≤ length into.new) }
        ensures kept { IfOk result (λ n. drop n into.new ≡ drop n into.old) }
        ensures bytes { ReadConsumes (left self.old) (left self.new) result into.new }
        ensures cause { HasCause (faults self.old) (faults self.new) result };
}

/// Where bytes go to. A sink counts its faults; the count never falls, and stands still at the
/// greatest `u64`.
pub trait Sink {
    // the bytes that the sink has taken, where it tells them
    ghost content: { Self → Option (List ℕ) };

    // how many writes have failed
    ghost faults: { Self → ℕ };

    /// Takes the first bytes of `piece` and answers how many, at least one of a piece that isn't
    /// empty.
    ///
    /// Failed comes only where the count of faults rose in this call, or stands at its end. It
    /// takes no byte.
    fn write(&mut self, piece: &[u8]) -> Result<usize, Failed>
        ensures bound { IfOk result (λ n. n ≤ length piece.now) }
        ensures some { IfOk result (λ n. 0 < length piece.now → 0 < n) }
        ensures bytes { WriteAppends (content self.old) (content self.new) result piece.now }
        ensures cause { HasCause (faults self.old) (faults self.new) result };
}

/// Writes all the bytes, by as many calls of `write` as it takes.
///
/// Failed comes only where the sink's count of faults rose in this call, or stands at its end. A
/// prefix of the bytes was taken then.
pub fn write_all<K: Sink>(sink: &mut K, bytes: &[u8]) -> Result<(), Failed>
    ensures all { OnOk result (Appends (K.content sink.old) (K.content sink.new) bytes.now) }
    ensures prefix { OnErr result (AppendsPrefix (K.content sink.old) (K.content sink.new) bytes.now) }
    ensures cause { HasCause (K.faults sink.old) (K.faults sink.new) result }
{
    let mut at = 0;
    while at < bytes.len() {
        at += sink.write(&bytes[at..])?;
    }
    Ok(())
}

// Copies the first `count` bytes of `from` to the front of `into`.
pub(crate) fn copy_front(from: &[u8], count: usize, into: &mut [u8])
    requires from { count ≤ length from.now }
    requires into { count ≤ length into.old }
    ensures front { take count into.new ≡ take count from.now }
    ensures rest { drop count into.new ≡ drop count into.old }
{
    into[..count].copy_from_slice(&from[..count]);
}

#[cfg(test)]
mod tests;
