//! Days of a turn that exchanges units.

use sample_days::{TWO_TYPES, Texts};

/// A turn that uncouples at the front and couples at the rear; the second trip leaves when what is given is ready. The
/// compositions are A, B, AB, BA and BB.
pub(crate) const EXCHANGE: Texts<'static> = Texts {
    stock: b"station,type,start,end\nX,A,1,1\nX,B,1,1\n",
    trips: b"trip,from,departure,to,arrival,km,demand\n\
        T1,X,08:00,Y,09:00,10,300\nT2,Y,09:30,X,10:30,10,150\n",
    links: b"kind,arriving,arriving2,departing,departing2,reverse,uncouple,couple,exchange\n\
        turn,T1,,T2,,no,front,rear,yes\n",
    ..TWO_TYPES
};

/// The same, and the second trip leaves a minute earlier.
pub(crate) const EARLY_EXCHANGE: Texts<'static> = Texts {
    trips: b"trip,from,departure,to,arrival,km,demand\n\
        T1,X,08:00,Y,09:00,10,300\nT2,Y,09:29,X,10:30,10,150\n",
    ..EXCHANGE
};
