// Writing to a sink.
ghost use Rattle.scr_base.specs.Causes.{HasCause};
ghost use Rattle.scr_replay.specs.Outputs.{Puts};

use scr_base::{Sink, SinkFailed};

/// Puts all of the bytes into a sink. After a fault it holds a front of them.
pub fn put_all<K: Sink>(sink: &mut K, bytes: &[u8]) -> Result<(), SinkFailed>
    ensures put { Puts (K.held sink.old) (K.held sink.new) bytes.now result }
    ensures cause { HasCause (K.fault_count sink.old) (K.fault_count sink.new) result }
{
    let mut done = 0;
    while done < bytes.len() {
        match sink.put(&bytes[done..]) {
            Ok(count) => done += count,
            Err(SinkFailed) => return Err(SinkFailed),
        }
    }
    Ok(())
}
