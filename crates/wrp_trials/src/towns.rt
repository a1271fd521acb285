//! Worked towns.

/// The first line of a table.
pub(crate) const HEADER: &str = "street,from,to,forward,backward,need\n";

/// A street that costs more one way, and serves either way.
pub(crate) const WINDY: &[u8] = b"street,from,to,forward,backward,need\ne,A,B,2,3,yes\n";

/// Two required streets, and one between them that is not.
pub(crate) const CHAIN: &[u8] =
    b"street,from,to,forward,backward,need\ne,A,B,1,1,yes\nf,B,C,10,10,no\ng,C,D,1,1,yes\n";

/// Two triangles of required streets, joined by one.
pub(crate) const TRIANGLES: &[u8] = b"street,from,to,forward,backward,need\n\
ab,A,B,1,1,yes\nbc,B,C,1,1,yes\nca,C,A,1,1,yes\nad,A,D,1,1,yes\n\
de,D,E,1,1,yes\nef,E,F,1,1,yes\nfd,F,D,1,1,yes\n";

/// A triangle that is driven one way round, a street against it, and a street apart. Each tour that
/// is worth it drives the first street twice and the next three once: that costs 9.
pub(crate) const APART: &[u8] = b"street,from,to,forward,backward,need\n\
a,A,B,1,-,no\nb,B,C,1,-,yes\nc,C,A,1,-,no\nd,B,A,5,-,yes\ne,D,E,2,2,no\n";
