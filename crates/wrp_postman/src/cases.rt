// Worked towns, their proofs, and what the check of each prints.

pub(crate) const HEADER: &str = "street,from,to,forward,backward,need\n";

pub(crate) const TRIANGLE: &str = "ab,A,B,3,3,yes\nbc,B,C,4,4,yes\nca,C,A,5,5,yes\n";

pub(crate) const SLOPE: &str = "e,A,B,2,3,yes\n";

pub(crate) const PATH: &str = "e,A,B,1,1,yes\nf,B,C,10,10,no\ng,C,D,1,1,yes\n";

/// Two streets side by side, and two loops on a path between the same junctions.
const CHAIN: &str = "a,P,S,1,1,yes\nb,P,S,1,1,yes\nl,Q,Q,0,-,yes\nm,R,R,0,-,yes\nf,P,Q,1,1,no\n\
    g,Q,R,1,1,no\nh,R,S,1,1,no\n";

/// The streets of nine junctions in three rows.
const GRID: &str = "ab,A,B,1,1,yes\nbc,B,C,1,1,yes\nde,D,E,1,1,yes\nef,E,F,1,1,yes\n\
    gh,G,H,1,1,yes\nhi,H,I,1,1,yes\nad,A,D,1,1,yes\ndg,D,G,1,1,yes\n\
    be,B,E,1,1,yes\neh,E,H,1,1,yes\ncf,C,F,1,1,yes\nfi,F,I,1,1,yes\n";

/// The rows of a table, a proof from its version on, and what the check of both prints.
pub(crate) type Case = (&'static str, &'static str, &'static str);

pub(crate) const CASES: [Case; 58] = [
    // Proofs that are accepted.
    (
        TRIANGLE,
        "2\nt 12 0+ 1+ 2+\nb 0 1 3:3 4:4 5:5\nend optimal 12\n",
        "accepted optimal 12",
    ),
    ("", "1\nt 0\nend optimal 0\n", "accepted optimal 0"),
    (
        "a,A,B,1,-,no\nb,B,C,1,-,yes\nc,C,A,1,-,no\nd,B,A,5,-,yes\n",
        "1\nt 9 0+ 1+ 2+ 0+ 3+\nb 0 1 0:1 2:2 3:3 4:6\nend optimal 9\n",
        "accepted optimal 9",
    ),
    (
        "l,A,A,7,-,yes\n",
        "2\nt 7 0+\nb 0 1 1:7\nend optimal 7\n",
        "accepted optimal 7",
    ),
    (
        "e,A,B,2,3,both\n",
        "2\nt 5 0+ 0-\nb 0 1 2:2 3:3\nend optimal 5\n",
        "accepted optimal 5",
    ),
    (
        "e,A,B,2,3,forward\n",
        "2\nt 5 0+ 0-\nb 0 1 1:3 2:5\nend optimal 5\n",
        "accepted optimal 5",
    ),
    (
        "ab,A,B,1,9,backward\nbc,B,C,1,1,no\nca,C,A,1,1,no\n",
        "2\nt 10 0- 0+\nb 0 1 0:1 3:10\nend optimal 10\n",
        "accepted optimal 10",
    ),
    // Cuts of each kind, a negative reduced cost, and trees.
    (
        SLOPE,
        "1\nt 5 0+ 0-\no 0\nb 0 2 1:1 3:5\nend optimal 5\n",
        "accepted optimal 5",
    ),
    (
        SLOPE,
        "1\nt 5 0+ 0-\nr 2 1:1 2:1\nr 2 0:1 2:1\nb 0 1 3:3 4:2\nend optimal 5\n",
        "accepted optimal 5",
    ),
    (
        PATH,
        "2\nt 24 0+ 1+ 2+ 2- 1- 0-\no 0\no 3\nc 0 2 0 1\nc 2 0 2 3\n\
            b 0 1 6:1 7:1 8:10 9:10\nend optimal 24\n",
        "accepted optimal 24",
    ),
    (
        SLOPE,
        "1\nt 5 0+ 0-\no 0\nb 0 2 1:1 3:6\nend optimal 5\n",
        "accepted optimal 5",
    ),
    (
        "a,A,B,2,3,yes\nb,A,B,1,9,no\n",
        "1\nt 4 1+ 0-\no 0\nb 0 1 1:1 3:2\nend optimal 4\n",
        "accepted optimal 4",
    ),
    (
        SLOPE,
        "1\nt 5 0+ 0-\nz 0\ns 0 0 0\ne 1 0:1 2:1\nb 2 1 1:3\nend optimal 5\n",
        "accepted optimal 5",
    ),
    (
        SLOPE,
        "1\nt 5 0+ 0-\nb 0 2 1:1 2:5\np 0 2 0:1 1:1\ns 0 0 0\ne 1 0:1 2:1\nb 2 1 1:3\n\
            end optimal 5\n",
        "accepted optimal 5",
    ),
    (
        PATH,
        "2\nt 24 0+ 1+ 2+ 2- 1- 0-\nz 0\ns 0 2 0\na 1 0 2 0 1\nend unfinished 0 24\n",
        "accepted unfinished 0 24",
    ),
    (
        "e,A,B,1000001,3,yes\n",
        "2\nt 1000004 0+ 0-\no 0\nb 0 2 0:999998 3:1000004\nend optimal 1000004\n",
        "accepted optimal 1000004",
    ),
    (
        CHAIN,
        "1\nt 6 0+ 1- 4+ 2+ 5+ 3+ 5- 4-\nk 3 0 3 1 2\nb 0 1 8:1\nend optimal 6\n",
        "accepted optimal 6",
    ),
    (
        GRID,
        "1\nt 16 6+ 7+ 4+ 5+ 11- 11+ 5- 9- 8- 0- 6+ 2+ 3+ 10- 1- 0-\no 1\no 3\no 5\no 7\n\
            b 0 1 21:1 22:1 23:1 24:1\nend optimal 16\n",
        "accepted optimal 16",
    ),
    // Towns without a tour.
    (
        "e,A,B,2,-,yes\n",
        "1\nn 1 0 / 0 0\nend infeasible\n",
        "accepted infeasible",
    ),
    (
        "e,A,B,-,-,yes\n",
        "1\nn 0 0 / 0\nend infeasible\n",
        "accepted infeasible",
    ),
    (
        "e,A,B,-,3,forward\n",
        "1\nn 0 0 / 0\nend infeasible\n",
        "accepted infeasible",
    ),
    // One proof for each rule, and more where a rule has cases.
    (
        "e,A,B,1000001,3,yes\n",
        "1\nt 1000004 0+ 0-\n",
        "refused 1 Start",
    ),
    (SLOPE, "1\no 0\nend infeasible\n", "refused 3 End"),
    (
        SLOPE,
        "1\nt 5 0+ 0-\nb 0 1 2:3\nb 0 1 2:2\n",
        "refused 4 Low",
    ),
    (SLOPE, "1\nt 5 0+ 0-\no 0 1\n", "refused 3 Even"),
    (
        PATH,
        "1\nt 24 0+ 1+ 2+ 2- 1- 0-\nc 0 2 0\n",
        "refused 3 Cross",
    ),
    (SLOPE, "1\nt 5 0+ 0-\nr 1 2:2097152\n", "refused 3 Wide"),
    (
        CHAIN,
        "1\nt 6 0+ 1- 4+ 2+ 5+ 3+ 5- 4-\nk 3 0 3 1 1\n",
        "refused 3 Chain",
    ),
    (
        CHAIN,
        "1\nt 6 0+ 1- 4+ 2+ 5+ 3+ 5- 4-\nk 2 0 2 1 1\n",
        "refused 3 Range",
    ),
    (SLOPE, "1\nt 5 0+ 0-\nz 0\ns 0 0 1\n", "refused 4 Part"),
    (SLOPE, "1\nt 5 0+ 0-\ns 0 0 0\n", "refused 3 Alone"),
    (
        SLOPE,
        "1\nt 5 0+ 0-\nb 0 1 2:2\np 0 2 0:1 1:1\n",
        "refused 4 Price",
    ),
    (
        PATH,
        "1\nt 24 0+ 1+ 2+ 2- 1- 0-\nz 0\ns 0 2 0\na 2 0 2 0 1\n",
        "refused 5 Leak",
    ),
    (
        SLOPE,
        "1\nt 5 0+ 0-\nz 0\ns 0 0 0\ne 1 0:1\n",
        "refused 5 Low",
    ),
    (SLOPE, "1\nt 5 0+ 0-\np 0 2 0:5 1:5\n", "refused 3 Box"),
    (SLOPE, "1\nt 5 0+ 0-\np 0 2 0:2 1:1\n", "refused 3 Balance"),
    (SLOPE, "1\nt 5 0+ 0-\np 0 4 0:1 1:1\n", "refused 3 Service"),
    ("e,A,B,2,-,yes\n", "1\nn 0 1 / 0 0\n", "refused 2 Rise"),
    ("e,A,B,2,-,yes\n", "1\nn 0 0 / 0\n", "refused 2 Label"),
    (
        SLOPE,
        "1\nt 5 0+ 0-\nend unfinished 0 5\n",
        "accepted unfinished 0 5",
    ),
    (
        "e,A,B,2,-,yes\n",
        "1\nn 1 0 / 0 0\nz 0\n",
        "refused 3 Lonely",
    ),
    (SLOPE, "1\nx\n", "refused 2 Form"),
    (
        TRIANGLE,
        "2\nt 12 0+ 1+ 2+\nb 0 1 3:03 4:4 5:5\nend optimal 12\n",
        "refused 3 Number",
    ),
    (SLOPE, "1\nt 5 1+\n", "refused 2 Range"),
    (SLOPE, "1\nb 9 1 0:1\n", "refused 2 Range"),
    (SLOPE, "1\nt 5 0+\n", "refused 2 Walk"),
    (SLOPE, "1\nt 0\n", "refused 2 Serve"),
    (SLOPE, "1\nt 6 0+ 0-\n", "refused 2 Cost"),
    (SLOPE, "1\nt 5 0+ 0-\nt 5 0- 0+\n", "refused 3 Dear"),
    (
        TRIANGLE,
        "2\nt 12 0+ 1+ 2+\nb 0 1 3:3 4:4 5:5\nb 0 1 3:3\n",
        "refused 4 Closed",
    ),
    (
        SLOPE,
        "1\nt 5 0+ 0-\nb 0 1 2:2\nb 0 2 2:3\n",
        "refused 4 Low",
    ),
    (SLOPE, "1\nend optimal 5\n", "refused 2 End"),
    (
        SLOPE,
        "1\nt 5 0+ 0-\nb 0 1 2:2\nend optimal 5\n",
        "refused 4 End",
    ),
    (
        TRIANGLE,
        "2\nt 12 0+ 1+ 2+\nb 0 1 3:3 4:4 5:5\nend optimal 12\nx",
        "refused 5 After",
    ),
    // Tables with a fault.
    ("a,A,B,1,1\n", "2\n", "table Fields row 1"),
    (
        "a,A,B,1,1,no\na,,B,1,1,no\n",
        "2\n",
        "table Name row 2 field 2",
    ),
    ("a,A,B,1000000001,1,no\n", "2\n", "table Cost row 1 field 4"),
    ("a,A,B,1000000000,1,maybe\n", "2\n", "table Need row 1"),
];
