use std::fmt;

/// A list of names, printed with `, ` between them.
#[derive(Clone, Copy)]
pub(crate) struct NameList<'a> {
    pub(crate) names: &'a [String],
}

impl fmt::Display for NameList<'_> {
    ghost use Rattle.std.specs.Prelude.{Some, map, string_bytes};
    ghost use Rattle.tf_config_refusal.specs.Text.{names_text};

    ghost output = { λ list. Some (names_text (map string_bytes list.names.now)) };

    fn fmt<W: fmt::Write>(&self, f: &mut fmt::Formatter<W>) -> fmt::Result {
        match self.names {
            [] => Ok(()),
            [first, others @ ..] => {
                write!(f, "{first}")?;
                for name in others {
                    write!(f, ", {name}")?;
                }
                Ok(())
            }
        }
    }
}
