//! Why a query text is refused. What a store or a catalogue refuses is carried whole, with the offset of its line.
ghost use Rattle.std.specs.Prelude.{◌≡◌};
ghost use Rattle.graph.specs.Layer.{layer_number};
ghost use Rattle.rejections.specs.Fault.{query_number, query_layer, query_place};
ghost use Rattle.rejections.specs.declared.fault.QueryFault.TheVariants.{Text, Join, Row};

use catalogue::fault::RowFault;
use graph::fault::{At, StoreFault};
use graph::layer::Layer;
use texts::fault::TextFault;

/// A query text's refusal.
#[derive(Clone, Copy, PartialEq, Eq, Debug)]
pub enum QueryFault {
    /// 9, 15, 16, 17: the text itself.
    Text(TextFault),
    /// 1, 2, 3: the store refuses the join of the line at this offset.
    Join { place: usize, fault: StoreFault },
    /// 1, 21: the row count of the line at this offset.
    Row { place: usize, fault: RowFault },
}

impl From<TextFault> for QueryFault {
    ghost from_gives = { λ f r. r ≡ Text f };

    fn from(text: TextFault) -> QueryFault {
        QueryFault::Text(text)
    }
}

/// The place is the offset of the J line.
// stays: an `At` in the case would be taken apart at each match, as `Join(At { place, fault })`, and this conversion, for which `?` asks,
// would stand here just the same
impl From<At<StoreFault>> for QueryFault {
    ghost from_gives = { λ p r. r ≡ Join p.place p.fault };

    fn from(At { place, fault }: At<StoreFault>) -> QueryFault {
        QueryFault::Join { place, fault }
    }
}

/// The place is the offset of the R line.
// stays: as above; a join's refusal and a row count's are two cases
impl From<At<RowFault>> for QueryFault {
    ghost from_gives = { λ p r. r ≡ Row p.place p.fault };

    fn from(At { place, fault }: At<RowFault>) -> QueryFault {
        QueryFault::Row { place, fault }
    }
}

impl QueryFault {
    /// The refusal's number.
    pub fn number(self) -> u32
        ensures { result ≡ query_number self }
    {
        match self {
            QueryFault::Text(fault) => fault.number(),
            QueryFault::Join { fault, .. } => fault.number(),
            QueryFault::Row { fault, .. } => fault.number(),
        }
    }

    /// The layer that refuses: the text, the store or the rows.
    pub fn layer(self) -> Layer
        ensures { layer_number result ≡ query_layer self }
    {
        match self {
            QueryFault::Text(_) => Layer::Text,
            QueryFault::Join { .. } => Layer::Store,
            QueryFault::Row { .. } => Layer::Rows,
        }
    }

    /// The place in the text, or the amount that it names.
    pub fn place(self) -> usize
        ensures { result ≡ query_place self }
    {
        match self {
            QueryFault::Text(fault) => fault.place(),
            QueryFault::Join { place, .. } | QueryFault::Row { place, .. } => place,
        }
    }
}
