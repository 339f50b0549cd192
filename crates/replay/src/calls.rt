// The script, line after line: each call is made and answered, up to the input's end or the first line that is no call.
use grammar::Planner;
use input::Reader;
use mount::Mount;
use output::Out;
use prm::Prm;
use rrt::Rrt;
use rrt_connect::RrtConnect;
use rrt_star::RrtStar;
use script::{Line, NoCall};

// What the calls work on: one planner of each kind, and the mount.
#[derive(Clone, Copy)]
struct Planners {
    mount: Option<Mount>,
    rrt: Rrt,
    connect: RrtConnect,
    star: RrtStar,
    prm: Prm,
}

impl Planners {
    fn uninitialised() -> Planners {
        Planners {
            mount: mount_calls::none(),
            rrt: Rrt::new(),
            connect: RrtConnect::new(),
            star: RrtStar::new(),
            prm: Prm::new(),
        }
    }

    // Makes a call and writes what it answered, if its planner has such a one.
    fn make(&mut self, out: &mut Out, line: &Line<'_>) -> Result<(), NoCall> {
        match line.planner {
            Planner::Mount => {
                mount_calls::call(out, &mut self.mount, line.verb, line.numbers, line.table);
                Ok(())
            }
            Planner::Rrt => rrt_calls::call(out, &mut self.rrt, line),
            Planner::Connect => connect_calls::call(out, &mut self.connect, line),
            Planner::Star => star_calls::call(out, &mut self.star, line),
            Planner::Prm => prm_calls::call(out, &mut self.prm, line),
        }
    }

    // Reads the next line and makes its call. Without a word, as an empty line, a comment or the end of the input, there is none to make.
    fn step(
        &mut self,
        reader: &mut Reader,
        out: &mut Out,
        space: &mut [f64],
    ) -> Result<(), NoCall> {
        match script::read(reader, space)? {
            Some(line) => self.make(out, &line),
            None => Ok(()),
        }
    }
}

fn write_no_call(out: &mut Out, line: u64) {
    out.text(b"? line ");
    out.number(line as usize);
    out.byte(b'\n');
    out.flush();
}

// Lines are counted from 1.
pub fn run(reader: &mut Reader, out: &mut Out, space: &mut [f64]) {
    let mut planners = Planners::uninitialised();
    for number in 1..input::MOST {
        if planners.step(reader, out, space).is_err() {
            write_no_call(out, number);
            return;
        }
        if reader.has_ended() {
            return;
        }
    }
}
