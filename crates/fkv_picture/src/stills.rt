//! Texts that are the same in every picture.
ghost use Rattle.std.specs.Prelude.{Some};
ghost use Rattle.fkv_picture.specs.Stills.{still_text};

use std::fmt;

/// A text that is the same in every picture.
#[derive(Clone, Copy)]
pub(crate) enum Still {
    /// What a picture begins with: its size and its inks.
    Opening,
    /// What the inks of the strip stand for.
    LogLegend,
    /// What those of the squares stand for.
    IndexLegend,
}

impl fmt::Display for Still {
    ghost output = { λ it. Some (still_text it) };

    #[tactic(auto, unfolding(crate::specs::Stills::still_text))]
    fn fmt<W: fmt::Write>(&self, f: &mut fmt::Formatter<W>) -> fmt::Result {
        match self {
            Still::Opening => f.write_str(
                "<svg xmlns='http://www.w3.org/2000/svg' viewBox='0 0 1200 720' font-family='sans-serif' font-size='14' fill='#333'>\
                 <style>.head{font-size:22px}.part{font-size:16px;font-weight:bold}.right{text-anchor:end}.back{fill:#fff}.free{fill:#e9edf0}\
                 .valid{fill:#2a9d8f}.lost{fill:#e76f51}.invalid{fill:#e9c46a}.newer{fill:#8e5bd0}.none{fill:#264653}.used{fill:#4f7ea8}\
                 .b0{fill:#e9edf0}.b1{fill:#c6dbef}.b2{fill:#8fbfe0}.b3{fill:#4a98c9}.b4{fill:#1764ab}.b5{fill:#c0392b}</style>\
                 <rect class='back' width='1200' height='720'/>\n",
            ),
            Still::LogLegend => f.write_str(
                "<rect class='valid' x='40' y='154' width='12' height='12'/><text x='58' y='165'>valid</text>\
                 <rect class='lost' x='116' y='154' width='12' height='12'/><text x='134' y='165'>lost</text>\
                 <rect class='invalid' x='186' y='154' width='12' height='12'/><text x='204' y='165'>invalid</text>\
                 <rect class='newer' x='270' y='154' width='12' height='12'/><text x='288' y='165'>newer than the commit</text>\
                 <rect class='none' x='464' y='154' width='12' height='12'/><text x='482' y='165'>no record</text>\
                 <rect class='free' x='568' y='154' width='12' height='12'/><text x='586' y='165'>free</text>\n",
            ),
            Still::IndexLegend => f.write_str(
                "<rect class='b0' x='40' y='620' width='12' height='12'/><text x='58' y='631'>empty</text>\
                 <rect class='b1' x='120' y='620' width='12' height='12'/><text x='138' y='631'>to 1/4 of its slots</text>\
                 <rect class='b2' x='286' y='620' width='12' height='12'/><text x='304' y='631'>to 1/2</text>\
                 <rect class='b3' x='366' y='620' width='12' height='12'/><text x='384' y='631'>to 3/4</text>\
                 <rect class='b4' x='446' y='620' width='12' height='12'/><text x='464' y='631'>to all</text>\
                 <rect class='b5' x='522' y='620' width='12' height='12'/><text x='540' y='631'>more than all</text>\n",
            ),
        }
    }
}
