use wrp_rows::Point;
use wrp_tableau::Tableau;
use wrp_town::List;

/// How a relaxation ended. Each answer lists the pivots that were done, by row and column.
#[derive(Debug, Drop)]
pub enum Lp {
    /// The cheapest point, and a multiplier of each chosen row, at least 0, over the point's
    /// denominator. The tableau is that after the pivots.
    Optimal {
        point: Point,
        mult: List<(u32, i128)>,
        table: Tableau,
        taken: List<(u32, u32)>,
    },
    /// There is no point, as a multiplier of each chosen row shows.
    Empty {
        mult: List<(u32, i128)>,
        taken: List<(u32, u32)>,
    },
    /// The next pivot would make an entry too large, or the point's denominator would be.
    Wide {
        taken: List<(u32, u32)>,
    },
    /// The limit of pivots is reached before an end.
    Pivots {
        taken: List<(u32, u32)>,
    },
}
