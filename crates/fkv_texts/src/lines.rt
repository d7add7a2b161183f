//! What the lines are made of.
ghost use Rattle.std.specs.Prelude.{Some, OnOk};
ghost use Rattle.std.specs.Io.KnownBytes.{Appends};
ghost use Rattle.fkv_texts.specs.Lines.{key_text, keys_text, point_text, points_text};

use fkv_base::{Key, Phase, Serial, Version};
use fkv_map::Reply;
use std::fmt;
use std::io::{self, Write};

/// The key of a line as a word, with the blank before it; nothing where nobody knows it.
#[derive(Clone, Copy)]
pub(crate) struct KeyWord(pub(crate) Option<Key>);

impl fmt::Display for KeyWord {
    ghost use Rattle.fkv_texts.specs.Lines.{key_word};

    ghost output = { λ word. Some (key_word word.0) };

    fn fmt<W: fmt::Write>(&self, f: &mut fmt::Formatter<W>) -> fmt::Result {
        match self.0 {
            Some(key) => write!(f, " {}", key.0),
            None => Ok(()),
        }
    }
}

/// What an operation replied, with the blank before it.
#[derive(Clone, Copy)]
pub(crate) struct ReplyText(pub(crate) Reply);

impl fmt::Display for ReplyText {
    ghost use Rattle.fkv_texts.specs.Lines.{reply_text};

    ghost output = { λ text. Some (reply_text text.0) };

    fn fmt<W: fmt::Write>(&self, f: &mut fmt::Formatter<W>) -> fmt::Result {
        match self.0 {
            Reply::Nothing => write!(f, " done"),
            Reply::Number(value) | Reply::Found(value) => write!(f, " = {}", value.0),
            Reply::Absent => write!(f, " absent"),
        }
    }
}

/// A phase and a version, with a blank before each.
#[derive(Clone, Copy)]
pub(crate) struct PhaseText(pub(crate) Phase, pub(crate) Version);

impl fmt::Display for PhaseText {
    ghost use Rattle.fkv_texts.specs.Lines.{phase_text};

    ghost output = { λ text. Some (phase_text text.0 text.1) };

    fn fmt<W: fmt::Write>(&self, f: &mut fmt::Formatter<W>) -> fmt::Result {
        let (phase, version) = (self.0.name(), self.1.0);
        write!(f, " {phase} {version}")
    }
}

/// Keys, with a blank before each.
pub(crate) fn write_keys<W: Write>(output: &mut W, keys: &[Key]) -> io::Result<()>
    ensures { OnOk result (Appends (W.contents output.old) (W.contents output.new) (keys_text keys.now)) }
{
    for key in keys {
        write_key(output, *key)?;
    }
    Ok(())
}

fn write_key<W: Write>(output: &mut W, key: Key) -> io::Result<()>
    ensures { OnOk result (Appends (W.contents output.old) (W.contents output.new) (key_text key)) }
{
    write!(output, " {}", key.0)
}

/// The points of a commit, session by session, with a blank before each.
pub(crate) fn write_points<W: Write>(output: &mut W, points: &[Serial]) -> io::Result<()>
    ensures { OnOk result (Appends (W.contents output.old) (W.contents output.new) (points_text points.now)) }
{
    for point in points {
        write_point(output, *point)?;
    }
    Ok(())
}

fn write_point<W: Write>(output: &mut W, point: Serial) -> io::Result<()>
    ensures { OnOk result (Appends (W.contents output.old) (W.contents output.new) (point_text point)) }
{
    write!(output, " {}", point.0)
}
