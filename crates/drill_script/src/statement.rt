ghost use Rattle.std.specs.Prelude.{◌≡◌, ◌++◌, OnOk, string_bytes};
ghost use Rattle.drill_script.specs.Draws.{state_after};
ghost use Rattle.drill_script.specs.Statements.{chosen, line, statement_at, statement_text};

use crate::draws::Draws;
use std::alloc::AllocError;

/// A statement of the drill on the shared object `s`.
#[derive(Clone, Copy, Debug)]
pub(crate) enum Statement {
    /// The member of this number is set to the value.
    Set { member: u32, value: u32 },
    /// The member is printed, or the fault that it is not there.
    Print { member: u32 },
    /// The member is deleted, or the fault that it is not there is printed.
    Delete { member: u32 },
    /// The member is set to the value and itself.
    SetSum { member: u32, value: u32 },
}

impl Statement {
    /// The statement that the next three draws choose: its form, its member and its value.
    pub(crate) fn drawn(draws: &mut Draws) -> Statement
        ensures statement { result ≡ statement_at draws.old.state 0 }
        ensures state { draws.new.state ≡ state_after draws.old.state 3 }
    {
        let form = draws.next();
        let member = draws.next();
        let value = draws.next();
        Statement::chosen(form, member, value)
    }

    fn chosen(form: u32, member: u32, value: u32) -> Statement
        ensures { result ≡ chosen form member value }
    {
        let member = member % 8;
        let value = value % 100;
        match form % 4 {
            0 => Statement::Set { member, value },
            1 => Statement::Print { member },
            2 => Statement::Delete { member },
            _ => Statement::SetSum { member, value },
        }
    }

    /// Appends the line of the statement. The one error is want of memory.
    pub(crate) fn append_to(self, script: &mut String) -> Result<(), AllocError>
        ensures { OnOk result (string_bytes script.new ≡ string_bytes script.old ++ line (statement_text self)) }
    {
        match self {
            Statement::Set { member, value } => writeln!(script, "s.m{member} = {value};"),
            Statement::Print { member } => {
                writeln!(
                    script,
                    "try {{ print s.m{member}; }} catch e {{ print e; }}"
                )
            }
            Statement::Delete { member } => {
                writeln!(
                    script,
                    "try {{ delete s.m{member}; }} catch e {{ print e; }}"
                )
            }
            Statement::SetSum { member, value } => {
                writeln!(script, "s.m{member} = ({value} + {value});")
            }
        }
    }
}
