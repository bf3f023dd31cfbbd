use av_base::{Bytes, List, NoMemory};
use std::alloc::{AllocError, Global};

/// A row: what it says of the answer, the command, its files in the order of the words, and the parts that they name.
#[derive(Clone, Copy)]
pub struct Row<'a> {
    pub title: &'a str,
    pub command: &'static str,
    parts: &'a str,
    files: &'a str,
}

/// The command of a row, and its files.
fn command_of(text: &str) -> (&'static str, &str) {
    for (line, command) in [
        (":generate\n", "generate"),
        (":simulate\n", "simulate"),
        (":replay\n", "replay"),
        (":dump\n", "dump"),
        (":undump\n", "undump"),
        (":workload\n", "workload"),
        (":campaign\n", "campaign"),
        (":bridge\n", "bridge"),
        (":mux\n", "mux"),
        (":demux\n", "demux"),
        (":gather\n", "gather"),
    ] {
        if let Some(files) = text.strip_prefix(line) {
            return (command, files);
        }
    }
    ("check", text)
}

impl<'a> Row<'a> {
    pub fn of(parts: &'a str, text: &'a str) -> Row<'a> {
        let (title, rest) = text.split_once('\n').unwrap_or((text, ""));
        let (command, files) = command_of(rest);
        Row {
            title,
            command,
            parts,
            files,
        }
    }

    /// The same row under `generate`, without its last file.
    pub fn generating(&self) -> Row<'a> {
        let (files, _) = self.files.rsplit_once(":file").unwrap_or((self.files, ""));
        Row {
            title: self.title,
            command: "generate",
            parts: self.parts,
            files,
        }
    }
}

/// Where a row's `@` stands.
#[derive(Clone, Copy)]
pub struct Mark {
    pub file: usize,
    pub line: usize,
    pub byte: usize,
}

/// Another byte at a place of the last file.
#[derive(Clone, Copy)]
pub struct Change {
    pub place: usize,
    pub byte: u8,
}

/// Writes a file, and keeps the place of its first `@`.
#[derive(Drop)]
struct Pen<'a> {
    bytes: &'a mut Bytes,
    mark: Option<usize>,
    change: Option<Change>,
}

fn digit_of(byte: u8) -> u8 {
    char::from(byte).to_digit(16).map_or(0, |digit| digit as u8)
}

impl Pen<'_> {
    fn put(&mut self, byte: u8) -> Result<(), NoMemory> {
        let byte = match self.change {
            Some(change) if change.place == self.bytes.len() => change.byte,
            _ => byte,
        };
        self.bytes.push(byte)
    }

    fn put_bytes(&mut self, bytes: &[u8]) -> Result<(), NoMemory> {
        for byte in bytes {
            if *byte != b'@' {
                self.put(*byte)?;
            } else if self.mark.is_none() {
                self.mark = Some(self.bytes.len());
            }
        }
        Ok(())
    }

    /// Text, in which `%` and two hexadecimal digits write any byte, and `@` none.
    fn put_text(&mut self, text: &str) -> Result<(), NoMemory> {
        for (k, part) in text.split('%').enumerate() {
            match part.as_bytes() {
                [high, low, rest @ ..] if k > 0 => {
                    self.put(digit_of(*high) << 4 | digit_of(*low))?;
                    self.put_bytes(rest)?;
                }
                all => self.put_bytes(all)?,
            }
        }
        Ok(())
    }

    fn put_number(&mut self, number: u64) -> Result<(), NoMemory> {
        let mut is_begun = false;
        for unit in [100_000, 10_000, 1000, 100, 10, 1] {
            let digit = (number / unit % 10) as u8;
            is_begun |= digit > 0 || unit == 1;
            if is_begun {
                self.put(b'0' + digit)?;
            }
        }
        Ok(())
    }

    /// A line for each number below a count, with the number in place of `#`, and 256 times the number in place of `&`.
    fn put_times(&mut self, times: &str) -> Result<(), NoMemory> {
        let (count, pattern) = times.split_once(' ').unwrap_or((times, ""));
        for number in 0..count.parse::<u32>().unwrap_or(0) {
            for byte in pattern.bytes() {
                match byte {
                    b'#' => self.put_number(u64::from(number))?,
                    b'&' => self.put_number(u64::from(number) * 256)?,
                    _ => self.put(byte)?,
                }
            }
            self.put(b'\n')?;
        }
        Ok(())
    }

    fn put_lines(&mut self, lines: &str) -> Result<(), NoMemory> {
        for line in lines.lines() {
            self.put_text(line)?;
            self.put(b'\n')?;
        }
        Ok(())
    }

    /// What a line of a row stands for.
    fn put_line(&mut self, parts: &str, line: &str) -> Result<(), NoMemory> {
        if let Some(name) = line.strip_prefix('+') {
            self.put_lines(part_of(parts, name))
        } else if let Some(times) = line.strip_prefix(":times ") {
            self.put_times(times)
        } else if let Some(text) = line.strip_prefix(":last ") {
            self.put_text(text)
        } else {
            self.put_text(line)?;
            self.put(b'\n')
        }
    }
}

/// The lines of the part of this name.
fn part_of<'a>(parts: &'a str, name: &str) -> &'a str {
    for part in parts.split(":part ") {
        if let Some((head, lines)) = part.split_once('\n')
            && head == name
        {
            return lines;
        }
    }
    ""
}

fn mark_at(file: usize, bytes: &[u8], byte: usize) -> Mark {
    let before = bytes.get(..byte).unwrap_or(bytes);
    let lines = before.iter().filter(|byte| **byte == b'\n').count();
    Mark {
        file,
        line: lines.saturating_add(1),
        byte,
    }
}

/// Writes a file, and gives its mark.
fn write_file(
    row: &Row,
    file: usize,
    text: &str,
    change: Option<Change>,
    bytes: &mut Bytes,
) -> Result<Option<Mark>, NoMemory> {
    let mut pen = Pen {
        bytes,
        mark: None,
        change,
    };
    for line in text.strip_prefix('\n').unwrap_or(text).lines() {
        pen.put_line(row.parts, line)?;
    }
    let mark = pen.mark;
    Ok(mark.map(|byte| mark_at(file, bytes.as_slice(), byte)))
}

/// Adds the files behind that of the command's word, and gives the first mark.
fn push_files(
    alloc: Global,
    row: &Row,
    change: Option<Change>,
    files: &mut List<Bytes>,
) -> Result<Option<Mark>, NoMemory> {
    let mut first = None;
    let last = row.files.matches(":file").count();
    for (k, text) in row.files.split(":file").enumerate() {
        let number = files.len();
        let change = if k == last { change } else { None };
        let mut bytes = Bytes::new(alloc);
        let mark = write_file(row, number, text, change, &mut bytes)?;
        first = first.or(mark);
        files.push(bytes)?;
    }
    Ok(first)
}

/// The files of a row, the first for the command's word, with what is changed, and the first mark.
pub fn files_of(
    alloc: Global,
    row: &Row,
    change: Option<Change>,
) -> Result<(List<Bytes>, Option<Mark>), NoMemory> {
    let mut files = List::new(alloc);
    files.push(Bytes::new(alloc))?;
    let mark = push_files(alloc, row, change, &mut files)?;
    Ok((files, mark))
}

/// The command, and a word for each file. A workload and a module have the numbers that are their texts in place of files, and so
/// has a campaign or a bridge in place of the first one.
pub fn words_of(alloc: Global, row: &Row) -> Result<Vec<String>, AllocError> {
    let mut words = Vec::new(alloc);
    words.push(String::from_str(alloc, row.command)?)?;
    for (k, text) in row.files.split(":file").enumerate() {
        let word = match row.command {
            "workload" | "mux" | "demux" | "gather" => text.trim(),
            "campaign" | "bridge" if k == 0 => text.trim(),
            _ => "file",
        };
        words.push(String::from_str(alloc, word)?)?;
    }
    Ok(words)
}
