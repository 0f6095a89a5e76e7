//! The days that are searched, beside that where one unit is left at Y, on which (A, A) costs 1060, (AA, A) costs 190
//! and (AA, AA) costs 120. On each of them the indices are those of the departure minute of X, of that of Y, of the end
//! of X and of the end of Y.

use sample_days::{ONE_LEFT, Texts};

/// Two trips without a link, of which the second leaves after the units of the first are ready. The compositions are A,
/// AA and AAA. T1 costs 60 with A or AA, and 90 with AAA; T2 costs 2090 with A, 120 with AA and 90 with AAA.
pub(crate) const APART: Texts<'static> = Texts {
    stations: b"station,platform,reallocation\nX,240,30\nY,240,30\n",
    trips: b"trip,from,departure,to,arrival,km,demand\n\
        T1,X,08:00,Y,09:00,10,203\nT2,Y,09:40,X,10:40,10,406\n",
    links: b"kind,arriving,arriving2,departing,departing2,reverse,uncouple,couple\n",
    ..ONE_LEFT
};

/// The same, where leaves on both sides are as low. T1 costs 30 with A, 60 with AA and 90 with AAA; T2 costs 120 with
/// A, 60 with AA and 90 with AAA.
pub(crate) const LEVEL: Texts<'static> = Texts {
    trips: b"trip,from,departure,to,arrival,km,demand\n\
        T1,X,08:00,Y,09:00,10,150\nT2,Y,09:40,X,10:40,10,209\n",
    ..APART
};

/// The same, where both units are wanted at X at the end.
pub(crate) const LEVEL_BACK: Texts<'static> = Texts {
    stock: b"station,type,start,end\nX,A,2,2\n",
    ..LEVEL
};

/// Two trips without a link, where two units leave X and are wanted there at the end, and two plans cost the same. The
/// compositions are A and AA. T1 costs 30 with A and 60 with AA, and T2 costs 90 with A and 60 with AA. (A, A) and
/// (AA, AA) are solutions.
pub(crate) const TWO_ALIKE: Texts<'static> = Texts {
    stations: b"station,platform,reallocation\nX,200,30\nY,200,30\n",
    stock: b"station,type,start,end\nX,A,2,2\n",
    trips: b"trip,from,departure,to,arrival,km,demand\n\
        T1,X,08:00,Y,09:00,10,150\nT2,Y,09:40,X,10:40,10,206\n",
    ..APART
};

/// The same, where with A alone on T1 no plan can cost less than that with AA on both, which is the cheapest: T1 costs
/// 60 with A or AA.
pub(crate) const NO_CHEAPER: Texts<'static> = Texts {
    trips: b"trip,from,departure,to,arrival,km,demand\n\
        T1,X,08:00,Y,09:00,10,203\nT2,Y,09:40,X,10:40,10,206\n",
    ..TWO_ALIKE
};

/// Two trips without a link, where more units are wanted at X at the end than there can be. One unit is at X, where T1
/// costs less with two; two at most are there at the end, and five are wanted.
pub(crate) const TOO_FEW: Texts<'static> = Texts {
    stock: b"station,type,start,end\nX,A,1,5\nY,A,2,0\n",
    trips: b"trip,from,departure,to,arrival,km,demand\n\
        T1,X,08:00,Y,09:00,10,300\nT2,Y,09:40,X,10:40,10,150\n",
    ..TWO_ALIKE
};

/// Two trips without a link, of which the second leaves before the units of the first are ready. T2 can take one unit
/// at Y, and is to take one more than T1, which takes one at least.
pub(crate) const EARLY_BACK: Texts<'static> = Texts {
    stock: b"station,type,start,end\nX,A,2,3\nY,A,1,0\n",
    trips: b"trip,from,departure,to,arrival,km,demand\n\
        T1,X,08:00,Y,09:00,10,150\nT2,Y,09:29,X,10:29,10,150\n",
    ..TWO_ALIKE
};
