//! The words of a line.
ghost use Rattle.std.specs.Prelude.{◌≡◌, map, IsTrue};
ghost use Rattle.std.specs.List.{list_all};
ghost use Rattle.omega_model.specs.Report.{task_words};
ghost use Rattle.omega_report.specs.Spelling.{is_no_time, word_of};

use omega_model::TaskKey;

/// A word of a line: a name of small letters and dashes, or a number or a time in microseconds, which are
/// written in decimal.
#[derive(Clone, Copy)]
pub enum Word {
    Name(&'static str),
    Number(u64),
    Time(u128),
}

/// The three words of a task and a machine: the job, the task's index, and the machine.
pub fn task_words(key: TaskKey, machine: u64) -> [Word; 3]
    ensures words { map word_of result ≡ task_words key machine }
    ensures no_time { IsTrue (list_all is_no_time result) }
{
    [
        Word::Number(key.job),
        Word::Number(u64::from(key.index)),
        Word::Number(machine),
    ]
}
