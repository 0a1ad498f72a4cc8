//! The shells for which there are completions.

ghost use Rattle.std.specs.Prelude.{◌≡◌};
ghost use Rattle.command_line.specs.CommandLine.{shell_named};

/// A shell that can complete the words of a command line.
#[derive(Clone, Copy, Debug, PartialEq, Eq)]
pub enum Shell {
    Bash,
    Zsh,
    Fish,
}

/// The shell of this name: `bash`, `zsh` or `fish`.
pub(crate) fn shell_named(name: &str) -> Option<Shell>
    ensures { result ≡ shell_named name.now }
{
    if name == "bash" {
        Some(Shell::Bash)
    } else if name == "zsh" {
        Some(Shell::Zsh)
    } else if name == "fish" {
        Some(Shell::Fish)
    } else {
        None
    }
}
