//! The lines of the faults of bundles and of their configurations. Each begins with what stands in
//! front, and none is printed for want of memory.

ghost use Rattle.std.specs.Prelude.{◌≡◌, ◌≢◌, IfOk};
ghost use Rattle.pch_lines.specs.FaultLines.{bundle_line, config_line, miter_error_line};

use crate::line::Line;
use bundle_defs::BundleError;
use fabric_defs::ConfigError;
use pch_base::NoMemory;
use verify_defs::MiterError;

/// The line of a bundle's fault.
pub fn bundle_line(front: Line, error: BundleError) -> Result<Vec<u8>, NoMemory>
    ensures { IfOk result (λ text. text.items ≡ bundle_line front error) }
{
    match error {
        BundleError::Magic => front.word("magic")?.end(),
        BundleError::Lengths => front.word("lengths")?.end(),
        BundleError::Version { found } => front.word("version")?.number(found)?.end(),
        BundleError::Geometry => front.word("geometry")?.end(),
        BundleError::Digest => front.word("digest")?.end(),
    }
}

/// The line of a configuration's fault.
pub fn config_line(front: Line, error: ConfigError) -> Result<Vec<u8>, NoMemory>
    ensures line { IfOk result (λ text. text.items ≡ config_line front error) }
    ensures fault { IfOk result (λ _. error ≢ ConfigError.NoMemory) }
{
    let front = front.word("config")?;
    match error {
        ConfigError::Length { want, found } => {
            front
                .word("length")?
                .long_number(want)?
                .long_number(found)?
                .end()
        }
        ConfigError::Selector { at } => front.word("selector")?.number(at)?.end(),
        ConfigError::NoMemory => Err(NoMemory),
    }
}

/// The line that says why a bundle gives no miter.
pub fn miter_error_line(front: Line, error: MiterError) -> Result<Vec<u8>, NoMemory>
    ensures line { IfOk result (λ text. text.items ≡ miter_error_line front error) }
    ensures fault { IfOk result (λ _. error ≢ MiterError.NoMemory) }
{
    match error {
        MiterError::Bundle(error) => bundle_line(front, error),
        MiterError::Config(error) => config_line(front, error),
        MiterError::Pads => front.word("pads")?.end(),
        MiterError::NoMemory => Err(NoMemory),
    }
}
