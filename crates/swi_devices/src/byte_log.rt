ghost use Rattle.std.specs.Prelude.{◌≡◌, ◌++◌};
ghost use Rattle.swi_devices.specs.ByteLog.{bytes_in};

use std::snapshot::Snapshot;

/// Bytes that passed through a device, the last one first: what a device keeps of them, a snapshot, takes no bytes when
/// it runs.
#[derive(Drop)]
pub enum ByteLog {
    None,
    Then(Snapshot<Snapshot<ByteLog>>, u8),
}

/// Notes a piece behind the bytes of a log. It takes no time when it runs.
pub fn note_bytes(log: &mut Snapshot<ByteLog>, piece: &[u8])
    ensures { bytes_in log.new.value ≡ bytes_in log.old.value ++ piece.now }
{
    for byte in piece {
        *log = Snapshot::of(&ByteLog::Then(Snapshot::of(log), *byte));
    }
}
