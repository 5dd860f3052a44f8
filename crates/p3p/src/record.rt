//! A frame's record, read out of lent bytes into lent doubles.
ghost use Rattle.std.specs.Prelude.{◌≡◌};
ghost use Rattle.records.specs.Encoding.{vectors};
ghost use Rattle.records.specs.Record.{record_at};
ghost use Rattle.p3p.specs.RecordLent.{number_read, frame_after, coordinates};

use frames::bearings::Bearings;
use frames::frame::Frame;
use frames::world::World;
use records::record::{Record, read};

// The 24 doubles of a frame, in the record's order.
fn all_coordinates(frame: Frame) -> [f64; 24]
    ensures { result ≡ coordinates (vectors frame) }
{
    let World { p0, p1, p2 } = frame.world;
    let Bearings { f0, f1, f2 } = frame.bearings;
    let target = frame.target;
    let bearing = frame.bearing;
    [
        p0.x, p0.y, p0.z, p1.x, p1.y, p1.z, p2.x, p2.y, p2.z, f0.x, f0.y, f0.z, f1.x, f1.y, f1.z,
        f2.x, f2.y, f2.z, target.x, target.y, target.z, bearing.x, bearing.y, bearing.z,
    ]
}

/// The frame of the record that the bytes begin with. Returns 0, or the refusal number with nothing
/// written; where there is no byte, 9.
#[unsafe(no_mangle)]
pub extern "C" fn p3p_read_record(bytes: &[u8], frame: &mut [f64; 24]) -> u32
    ensures value { result ≡ number_read (record_at bytes.now 0) }
    ensures frame_after { frame.new ≡ frame_after (record_at bytes.now 0) frame.old }
{
    match read(bytes, 0) {
        Record::End => 9,
        Record::Stop { refusal } | Record::Skip { refusal, .. } => refusal.number(),
        Record::Accepted { frame: held, .. } => {
            *frame = all_coordinates(held);
            0
        }
    }
}
