// What a line of a text says: a setting, the columns, a task; what is read of a text line by line, and the figures at its end.
// Every call answers any bytes and any reading.
#![tactic(auto)]

ghost use Rattle.std.specs.Prelude.{◌≡◌};
ghost use Rattle.lines.specs.Troubles.{after, no_reading};
ghost use Rattle.lines.specs.Answers.{line_taken, answer_at};

use cells::Name;

mod answering;
mod column_lines;
mod finding;
mod line_kinds;
mod refusing;
mod setting_lines;
mod task_lines;

// Up to 20 bytes of what stands at a place, zeros after them.
#[derive(Clone, Copy)]
pub struct Excerpt {
    pub length: u8,
    pub bytes: [u8; 20],
}

// What is not understood: 0 or its number, its line and column, its column by name (1 priority, 2 fault priority, 3 cost, 4 backup,
// 5 deadline, 6 period, 7 task, 0 none), what stands there, and the task's name as far as it is known.
#[derive(Clone, Copy)]
pub struct Trouble {
    pub refusal: u8,
    pub line: u64,
    pub column: u64,
    pub field: u8,
    pub excerpt: Excerpt,
    pub name: Name,
}

// The settings so far, at 1 the interval, at 2 the round, at 3 the share: whether each is given, and its value.
#[derive(Clone, Copy)]
pub struct Settings {
    pub given: [bool; 4],
    pub values: [u64; 4],
}

// The text's separator, 0 before it is known; how many cells a task's line has, which column each is, and which columns there are.
#[derive(Clone, Copy)]
pub struct Layout {
    pub separator: u8,
    pub width: u8,
    pub columns: [u8; 8],
    pub given: [bool; 8],
}

// A task of a text: its line, its numbers (priority, fault priority, cost, backup, deadline, period), and its name.
#[derive(Clone, Copy)]
pub struct Task {
    pub line: u64,
    pub numbers: [u64; 6],
    pub name: Name,
}

// What is read of a text so far, the task of the line that is being read among it.
#[derive(Clone, Copy)]
pub struct Reading {
    pub trouble: Trouble,
    pub settings: Settings,
    pub layout: Layout,
    pub task: Task,
    pub count: u8,
    pub tasks: [Task; 8],
}

// The figures of a text, of any size up to 64 bits; filled says which columns were filled in (1 fault priorities, 2 deadlines, 3 both).
#[derive(Clone, Copy)]
pub struct Figures {
    pub count: u8,
    pub interval: u64,
    pub round: u64,
    pub share: u64,
    pub filled: u8,
    pub tasks: [Task; 8],
}

// What a text is understood as: its figures, or what is not understood.
#[derive(Clone, Copy)]
pub struct Understood {
    pub trouble: Trouble,
    pub figures: Figures,
}

// The next line or column, which past 64 bits stays.
pub fn after(number: u64) -> u64
    ensures { result ≡ after number }
{
    number.saturating_add(1)
}

// A text of which nothing is read yet.
pub fn no_reading() -> Reading
    ensures { result ≡ no_reading }
{
    Reading {
        trouble: refusing::no_trouble(),
        settings: refusing::no_settings(),
        layout: refusing::no_layout(),
        task: refusing::task_at(0),
        count: 0,
        tasks: [refusing::task_at(0); 8],
    }
}

// What is read with a further line; `over` says that the line was longer than what is given of it.
pub fn read_line(reading: Reading, number: u64, line: &[u8], over: bool) -> Reading
    ensures { result ≡ line_taken reading number line.now over }
{
    answering::content_taken(reading, number, answering::unmarked(number, line), over)
}

// What a text is understood as that ends after this line.
pub fn answer(reading: Reading, number: u64, line: &[u8]) -> Understood
    ensures { result ≡ answer_at reading number line.now }
{
    answering::answered(answering::ended(reading, number, answering::unmarked(number, line)))
}
