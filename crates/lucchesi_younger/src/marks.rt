ghost use Rattle.std.specs.Prelude.{◌≡◌, ◌<◌, ◌≤◌, length, replicate, false, All, IfOk};
ghost use Rattle.lucchesi_younger.specs.Marks.{AreMarks, AreListed, AreCleared, AreAdded};
ghost use Rattle.lucchesi_younger.specs.Ways.{arcs_taken, arcs_left};
ghost use Rattle.graph_core.specs.Limits.{line_room};

use crate::work::{By, Step};
use graph_core::{Marks, NoMemory, Numbers};
use std::alloc::Global;

/// No mark for each of m arcs.
fn blank(alloc: Global, m: usize) -> Result<Marks, NoMemory>
    ensures { IfOk result (λ marks. marks ≡ replicate m false) }
{
    Ok(Marks::from_vec(Vec::from_elem(alloc, false, m)?))
}

/// Marks the arcs with these numbers, among m.
pub(crate) fn marks_of(alloc: Global, m: usize, join: &Numbers) -> Result<Marks, NoMemory>
    requires { All (λ j. j < m) join.now }
    ensures { IfOk result (λ marks. AreMarks m join.now marks) }
{
    let mut marks = blank(alloc, m)?;
    let numbers = join.as_slice();
    'numbers: for number in numbers {
        *marks.item_mut(*number as usize) = true;
    }
    Ok(marks)
}

/// The numbers of the marked arcs.
pub(crate) fn numbers_of(alloc: Global, marks: &Marks) -> Result<Numbers, NoMemory>
    requires { length marks.now ≤ line_room }
    ensures { IfOk result (λ numbers. AreListed marks.now numbers) }
{
    let mut numbers = Numbers::new(alloc);
    'marks: for number in 0..marks.len() {
        if *marks.item(number) {
            numbers.push(number as u32)?;
        }
    }
    Ok(numbers)
}

/// Takes off the marks of the arcs that the steps leave.
pub(crate) fn clear_left(marks: &mut Marks, steps: &[Step])
    requires { All (λ j. j < length marks.old) (arcs_left steps.now) }
    ensures { AreCleared (arcs_left steps.now) marks.old marks.new }
{
    'steps: for step in steps {
        if let By::Left(number) = step.by {
            *marks.item_mut(number as usize) = false;
        }
    }
}

/// Marks the arcs that the steps take.
pub(crate) fn add_taken(marks: &mut Marks, steps: &[Step])
    requires { All (λ j. j < length marks.old) (arcs_taken steps.now) }
    ensures { AreAdded (arcs_taken steps.now) marks.old marks.new }
{
    'steps: for step in steps {
        if let By::Taken(number) = step.by {
            *marks.item_mut(number as usize) = true;
        }
    }
}
