// A step, what it answers, and what it leaves of the header (specs/answer/Stepped.antt). The steps themselves are in modules
// `add_line` and `bind`.

// A step: what alters the state of an area.
#[derive(Clone, Copy)]
pub enum Step {
    // adds the line of a left and a right term
    Add(u32, u32),
    // binds a variable to a term
    Bind(u32, u32),
}

// What an accepted step answers.
#[derive(Clone, Copy)]
pub enum Accepted {
    // the entry of the line
    Added { entry: u32 },
    // how many old entries turned, and how many were appended
    Bound { turned: u32, appended: u32 },
}

// An accepted step on a loaded state: its answer, and the numbers of entries and of lines after it.
#[derive(Clone, Copy)]
pub struct Stepped {
    pub accepted: Accepted,
    pub entries: u32,
    pub lines: u32,
}
