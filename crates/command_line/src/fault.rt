//! Why there are no settings.

ghost use Rattle.std.specs.Prelude.{◌≡◌, ◌↔◌};
ghost use Rattle.clap.specs.Words.{kind_of};
ghost use Rattle.command_line.specs.CommandLine.{IsLineStatus};

use clap::Error;
use clap::error::ErrorKind;

/// Why there are no settings.
#[derive(Debug, Drop)]
pub enum SettingsFault {
    /// The words are no command line of the program, or ask for help: what clap prints.
    Line(Error),
    /// Memory ran out.
    Memory,
}

impl SettingsFault {
    /// Returns the exit status: 2 for words that are no command line, 0 where they ask for help or the version, 5 if
    /// memory ran out.
    pub fn status(&self) -> u8
        ensures line { (error : Error) → self.now ≡ SettingsFault.Line error →
            IsLineStatus (kind_of error) result }
        ensures memory { self.now ≡ SettingsFault.Memory → result ≡ 5 }
    {
        match self {
            SettingsFault::Line(error) => line_status(error),
            SettingsFault::Memory => 5,
        }
    }

    /// Prints why there are no settings, or the help that was asked for, and returns the exit status as `status` does.
    /// A fault of the device is passed over: there is nowhere else to report it.
    pub fn tell(&self, rt: &HostRuntime) -> u8
        ensures line { (error : Error) → self.now ≡ SettingsFault.Line error →
            IsLineStatus (kind_of error) result }
        ensures memory { self.now ≡ SettingsFault.Memory → result ≡ 5 }
    {
        match self {
            SettingsFault::Line(error) => {
                let _ = error.print(rt);
            }
            SettingsFault::Memory => {
                let _ = eprintln!(rt; "out of memory");
            }
        }
        self.status()
    }
}

/// Returns the exit status of what clap prints: what goes to standard error is a mistake, help and the version go to
/// standard output.
fn line_status(error: &Error) -> u8
    ensures { IsLineStatus (kind_of error.now) result }
{
    if error.use_stderr() { 2 } else { 0 }
}

/// Returns the fault of a failed call of clap.
pub fn fault_of(error: Error) -> SettingsFault
    ensures { (result ≡ SettingsFault.Memory) ↔ (kind_of error ≡ ErrorKind.OutOfMemory) }
{
    if matches!(error.kind(), ErrorKind::OutOfMemory) {
        SettingsFault::Memory
    } else {
        SettingsFault::Line(error)
    }
}
