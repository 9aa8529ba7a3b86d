// The solid (solid.rs, Solid::try_new): what is wrong with a shell of it, and with which.
#![tactic(auto)]

ghost use Rattle.std.specs.Prelude.{◌≡◌};
ghost use Rattle.solid.specs.Solid.{errors_of, reason_number};
ghost use Rattle.solid.specs.Sequence.{and_then, first_error, in_solid};
ghost use Rattle.errors.specs.declared.CallError.TheVariants.{Refused};

use condition::Condition;
use errors::CallError;

// A shell's own reason.
#[derive(Clone, Copy)]
pub enum ShellError {
    EmptyShell,
    NotConnected,
    NotClosedShell,
    NotManifold,
}

// A refusal of a solid: the shell's number, and its reason.
#[derive(Clone, Copy)]
pub struct SolidError {
    pub shell: usize,
    pub reason: ShellError,
}

impl ShellError {
    // Document 01's number.
    pub fn number(self) -> usize
        ensures { result ≡ reason_number self }
    {
        match self {
            ShellError::EmptyShell => 10,
            ShellError::NotConnected => 11,
            ShellError::NotClosedShell => 12,
            ShellError::NotManifold => 13,
        }
    }
}

impl From<SolidError> for CallError<SolidError> {
    ghost from_gives = { λ e r. r ≡ Refused e };

    fn from(e: SolidError) -> CallError<SolidError> {
        CallError::Refused(e)
    }
}

// What is wrong with a shell: 10, 11, 12, 13 in sequence.
pub fn check_shell(
    listings: usize,
    connected: bool,
    condition: Condition,
    singular: usize,
) -> Result<(), ShellError>
    ensures { result ≡ first_error (errors_of listings connected condition.0 singular) }
{
    if listings == 0 {
        return Err(ShellError::EmptyShell);
    }
    if !connected {
        return Err(ShellError::NotConnected);
    }
    if condition != Condition::CLOSED {
        return Err(ShellError::NotClosedShell);
    }
    if singular != 0 {
        return Err(ShellError::NotManifold);
    }
    Ok(())
}

// What is wrong with shell n, as a refusal of the solid.
pub fn in_solid(n: usize, shell: Result<(), ShellError>) -> Result<(), SolidError>
    ensures { result ≡ in_solid n shell }
{
    shell.map_err(|reason| SolidError { shell: n, reason })
}

// The answer so far, or what is wrong with shell n.
pub fn and_shell(
    so_far: Result<(), SolidError>,
    n: usize,
    shell: Result<(), ShellError>,
) -> Result<(), SolidError>
    ensures { result ≡ and_then so_far (in_solid n shell) }
{
    so_far?;
    in_solid(n, shell)
}
