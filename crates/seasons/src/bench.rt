// What cases work on: two clusters that are lent to calls, two windows and the holdings of a receiving member.
use holdings::Holdings;
use script::sides::{Sides, no_sides};
use window::Window;

// The window that calls change, and one that is kept to start from again.
#[derive(Clone, Copy)]
pub struct Bench {
    pub sides: Sides,
    pub window: Window,
    pub kept: Window,
    pub holdings: Holdings,
}

// Nothing set yet: no members, and a window that was refused.
pub(crate) fn empty() -> Bench {
    let sides = no_sides();
    let window = Window::open(sides.link(0)).window;
    Bench {
        sides,
        window,
        kept: window,
        holdings: holdings::fresh(),
    }
}
