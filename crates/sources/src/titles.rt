// Lines with a task's name.
use cells::Name;
use console::responses::Titles;
use lines::Task;
use report::Line;
use streams::parts;

// A line with a name, where it is one.
fn with_name(line: Line, name: Name) -> Line {
    let length = parts::part(name.length as usize, &name.bytes);
    report::titled_line(line, &name.bytes[..length])
}

// The line of the task at a place, from 0, with its name where there is one.
pub fn titled(line: Line, tasks: &[Task; 8], place: u8) -> Line {
    match tasks.get(place as usize) {
        Some(task) => with_name(line, task.name),
        None => line,
    }
}

// The same of the task at a place from 1.
pub fn titled_from_1(line: Line, tasks: &[Task; 8], place: u8) -> Line {
    match place.checked_sub(1) {
        Some(place) => titled(line, tasks, place),
        None => line,
    }
}

// Lines with the names of these tasks.
#[derive(Clone, Copy)]
pub struct Named {
    pub tasks: [Task; 8],
}

impl Titles for Named {
    fn titled(&self, line: Line, place: u8) -> Line {
        titled(line, &self.tasks, place)
    }
}
