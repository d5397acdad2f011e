// A file of cases, line by line.

use std::alloc::Global;
use std::rt::Files;
use std::{fs, io};

/// What the steps of a case act on.
pub trait Stage: Sized + Drop {
    /// What these words ask for. `None` where they aren't understood.
    fn begin(alloc: Global, words: &[&str]) -> Option<Self>;

    /// What comes of a step. `None` where it isn't understood.
    fn step(&mut self, alloc: Global, words: &[&str], wanted: &str) -> Option<String>;
}

/// How many cases went as they are written, and how many steps they have.
#[derive(Clone, Copy)]
pub struct Tally {
    pub cases: u32,
    pub steps: u32,
}

impl Tally {
    /// Counts these too.
    pub fn add(&mut self, more: Tally) {
        self.cases = self.cases.saturating_add(more.cases);
        self.steps = self.steps.saturating_add(more.steps);
    }

    /// Prints the line of a file.
    pub fn print(&self, rt: &impl Print, file: &str) -> io::Result<()> {
        let Tally { cases, steps } = *self;
        println!(rt; "{file}: {cases} cases, {steps} steps")
    }
}

/// A case while its lines are done.
#[derive(Drop)]
struct Case<'a, S> {
    file: &'a str,
    name: &'a str,
    /// The number of the last line that was read.
    line: u32,
    stage: Option<S>,
    steps: u32,
    differs: bool,
}

/// Does the cases of a file, and prints what differs and the file's line.
pub fn run_file<S: Stage, R: Files + Print + AllocGlobal>(rt: &R, file: &str) -> io::Result<Tally> {
    let path = format!(in rt.alloc(); "{file}.txt")?;
    let text = fs::read_to_string(rt, path.as_str())?;
    run_cases::<S, R>(rt, file, text.as_str())
}

fn run_cases<S: Stage, R: Print + AllocGlobal>(
    rt: &R,
    file: &str,
    text: &str,
) -> io::Result<Tally> {
    let mut tally = Tally { cases: 0, steps: 0 };
    let mut parts = text.split("\ncase ");
    let before = parts.next().unwrap_or("");
    let mut line = lines_of(before);
    for part in parts {
        let (name, own) = part.split_once('\n').unwrap_or((part, ""));
        let mut case = Case::<S>::new(file, name);
        tally.add(case.run(rt, before, own, line)?);
        line = line.saturating_add(lines_of(part));
    }
    tally.print(rt, file)?;
    Ok(tally)
}

fn lines_of(part: &str) -> u32 {
    u32::try_from(part.split('\n').count()).unwrap_or(u32::MAX)
}

impl<'a, S: Stage> Case<'a, S> {
    fn new(file: &'a str, name: &'a str) -> Self {
        Case {
            file,
            name,
            line: 0,
            stage: None,
            steps: 0,
            differs: false,
        }
    }

    /// Does the lines before the file's cases, and then its own, before which are so many lines and its name. A case
    /// without a step of its own shows nothing.
    fn run<R: Print + AllocGlobal>(
        &mut self,
        rt: &R,
        before: &str,
        own: &str,
        line: u32,
    ) -> io::Result<Tally> {
        self.lines(rt, before)?;
        self.line = line.saturating_add(1);
        self.steps = 0;
        self.lines(rt, own)?;
        if self.steps == 0 {
            self.differ(rt, "case", "a step", "none")?;
        }
        Ok(Tally {
            cases: u32::from(!self.differs),
            steps: self.steps,
        })
    }

    /// Does each line with those that continue it.
    fn lines<R: Print + AllocGlobal>(&mut self, rt: &R, text: &str) -> io::Result<()> {
        let mut whole = String::new(rt.alloc());
        for line in text.lines() {
            if !line.starts_with(' ') {
                self.line(rt, whole.as_str())?;
                whole.clear();
            }
            whole.push_str(line.trim_start())?;
            self.line = self.line.saturating_add(1);
        }
        self.line(rt, whole.as_str())
    }

    fn line<R: Print + AllocGlobal>(&mut self, rt: &R, line: &str) -> io::Result<()> {
        if line.is_empty() || line.starts_with('#') {
            return Ok(());
        }
        let (call, wanted) = line.split_once(": ").unwrap_or((line, ""));
        let words: Vec<&str> = call.split(' ').collect(rt.alloc())?;
        match self.came(rt.alloc(), words.as_slice(), wanted) {
            Some(came) if came.as_str() == wanted => Ok(()),
            Some(came) => self.differ(rt, call, wanted, came.as_str()),
            None => self.differ(rt, call, wanted, "not understood"),
        }
    }

    /// What comes of a step, or nothing of a line that begins.
    fn came(&mut self, alloc: Global, words: &[&str], wanted: &str) -> Option<String> {
        if wanted.is_empty() {
            self.stage = Some(S::begin(alloc, words)?);
            return Some(String::new(alloc));
        }
        self.steps = self.steps.saturating_add(1);
        match &mut self.stage {
            Some(stage) => stage.step(alloc, words, wanted),
            None => None,
        }
    }

    fn differ<R: Print>(&mut self, rt: &R, call: &str, wanted: &str, came: &str) -> io::Result<()> {
        self.differs = true;
        let Case {
            file,
            name,
            line,
            ..
        } = self;
        println!(rt;
            "{file}.txt, {name}, up to line {line}: {call}\n  wanted: {wanted}\n  came: {came}"
        )
    }
}
