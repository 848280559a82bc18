// One call of a list on a hierarchy that was built, an update or a solve.
use lists::{Reader, Stores};
use options::Handle;

mod solving;
mod updating;

// The kind of a call's answer, and whether the answer is as the list has it. Kinds below 64 are updates: each question has two, on the
// finest level and below it, and no question is accepted. Then come solves: 64 converged at once, 65 converged, 66 the iterations used
// up, and more by the question's number.
#[derive(Clone, Copy)]
pub struct Told {
    pub kind: usize,
    pub same: bool,
}

// The handle with something added to its levels: where that is not zero, the stores are not those of the handle.
fn changed(handle: Handle, added: u64) -> Handle {
    Handle {
        levels: handle.levels.wrapping_add(added),
        ..handle
    }
}

// The call that stands next, in the stores of a build.
pub fn call(input: &mut Reader, handle: Handle, stores: &mut Stores) -> Told {
    let updates = input.number() == 0;
    let h = changed(handle, input.number());
    if updates {
        updating::update(input, h, stores)
    } else {
        solving::solve(input, h, stores)
    }
}
