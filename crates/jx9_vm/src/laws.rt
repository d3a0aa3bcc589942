//! A law of scripts that are compiled and then run, the contract of a call that does nothing.

ghost use Rattle.jx9_vm.specs.Laws.{MeansItsScripts};

use jx9_compile::{Code, code_ends_once};
use jx9_meaning::every_script_ends;

/// The code of a script does what the script means, and nothing else: `exec` answers by the run of the code, and that run
/// has the events, the ending, the units left and the session of the script's meaning. What `compile` promises of a code is
/// the premise.
pub fn code_means_its_scripts(code: &Code)
    ensures { MeansItsScripts code.now }
{
    every_script_ends();
    code_ends_once(code);
}
