//! Arranging the programming track for clients.
ghost use Rattle.std.specs.Prelude.{◌≡◌, Ok, option_map};
ghost use Rattle.bus_server.specs.Programming.{failing, mount_answer, mounted};

use loconet_tcp::{Failure, MountError, Word};
use programming_track::ProgrammingBench;

/// Puts a decoder on the track, or none. Returns the answer.
pub(crate) fn mount(
    programming: &mut Option<ProgrammingBench>,
    decoder: &Result<Option<Word>, MountError>,
) -> Result<(), MountError>
    ensures programming { programming.new ≡ option_map (mounted decoder.now) programming.old }
    ensures answer { result ≡ mount_answer programming.old decoder.now }
{
    let Some(bench) = programming else {
        return Err(MountError::NoTrack);
    };
    match decoder {
        Err(error) => Err(*error),
        Ok(None) => {
            bench.dismount();
            Ok(())
        }
        Ok(Some(name)) => {
            if bench.mount(name.as_slice()) {
                Ok(())
            } else {
                Err(MountError::UnknownDecoder)
            }
        }
    }
}

/// Lets acknowledgments fail, or nothing, if this is asked for.
pub(crate) fn fail_acknowledgments(
    programming: &mut Option<ProgrammingBench>,
    failure: Option<Failure>,
)
    ensures programming { programming.new ≡ option_map (failing (Ok failure)) programming.old }
{
    let Some(bench) = programming else {
        return;
    };
    match failure {
        None => bench.set_failing(false),
        Some(Failure::Programming) => bench.set_failing(true),
        Some(Failure::Sensor { .. } | Failure::Turnout { .. }) => {}
    }
}
