ghost use Rattle.std.specs.Prelude.{Some};
ghost use Rattle.image.specs.Refusals.{layer_words};

use std::fmt;

/// Where a fault lies.
#[derive(Clone, Copy, PartialEq, Eq, Debug)]
pub enum Layer {
    Field,
    Record,
    Image,
}

impl fmt::Display for Layer {
    ghost output = { λ layer. Some (layer_words layer) };

    fn fmt<W: fmt::Write>(&self, f: &mut fmt::Formatter<W>) -> fmt::Result {
        f.write_str(match self {
            Layer::Field => "field",
            Layer::Record => "record",
            Layer::Image => "image",
        })
    }
}
