//! Whether a task is among others, with the same machine and spec.
ghost use Rattle.std.specs.Prelude.{◌≡◌, ◌<◌, ◌∷◌, ◌++◌, length, option_map};
ghost use Rattle.omega_model.specs.Cell.{task_at};
ghost use Rattle.omega_running.specs.Kept.{KeysRise};
ghost use Rattle.omega_running.specs.Standing.{same_task, stands_in};

use crate::orders::key_lt;
use omega_model::{Task, TaskKey};

/// Whether a task is among tasks in order of key, with the same machine and spec. Takes time logarithmic
/// in their number.
pub fn stands_in(tasks: &[Task], task: &Task) -> bool
    requires { KeysRise tasks.now }
    ensures { result ≡ stands_in tasks.now task.now }
{
    match task_in(tasks, task.key) {
        Some(other) => same_task(other, task),
        None => false,
    }
}

/// The task of this key among tasks in order of key. Takes time logarithmic in their number.
pub fn task_in(tasks: &[Task], key: TaskKey) -> Option<&Task>
    requires { KeysRise tasks.now }
    ensures { option_map (λ task. task.now) result ≡ task_at tasks.now key }
{
    if tasks.is_empty() {
        return None;
    }
    let (before, task, behind) = halves(tasks);
    if key_lt(key, task.key) {
        return task_in(before, key);
    }
    if key_lt(task.key, key) {
        return task_in(behind, key);
    }
    Some(task)
}

/// The tasks before the one in the middle, that one, and those behind it. There is at least one.
pub fn halves(tasks: &[Task]) -> (&[Task], &Task, &[Task])
    requires { 0 < length tasks.now }
    ensures { tasks.now ≡ result.0.now ++ result.1.now ∷ result.2.now }
{
    let (before, rest) = tasks.split_at(tasks.len() / 2);
    let Some((task, behind)) = rest.split_first() else {
        unreachable!()
    };
    (before, task, behind)
}

/// Whether two tasks have the same key, machine and spec.
pub(crate) fn same_task(a: &Task, b: &Task) -> bool
    ensures { result ≡ same_task a.now b.now }
{
    *a == *b
}
