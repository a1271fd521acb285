/// A rule that a line of a proof breaks.
#[derive(Clone, Copy, Debug, PartialEq, Eq)]
pub enum Rule {
    /// The first line is no version line, or one of version 1 though the town isn't small.
    Start,
    /// The line isn't in the shape of its kind.
    Form,
    /// A number is written otherwise than it has to be, or out of its range or order.
    Number,
    /// The list has a `Labels` record and another record.
    Lonely,
    /// A street, junction, row, node, arc or label isn't there.
    Range,
    /// A step is illegal, or doesn't begin where the one before it ends.
    Walk,
    /// A demand isn't served.
    Serve,
    /// The stated cost isn't the sum of the costs of the steps.
    Cost,
    /// A tour that is as cheap stands already.
    Dear,
    /// Too many cuts stand already.
    Cuts,
    /// The two streets don't show that a tour leaves the set.
    Cross,
    /// An even number of demands cross the set.
    Even,
    /// A coefficient or the right side of the new row is too large.
    Wide,
    /// The sets don't meet the conditions of a K-C cut.
    Chain,
    /// The node isn't open.
    Closed,
    /// The value isn't above the node's bound, or isn't above 0.
    Low,
    /// An arc that leaves the set may be used.
    Leak,
    /// A number lies outside the node's box.
    Box,
    /// What leaves a junction isn't what enters it.
    Balance,
    /// The numbers of a demand are too small.
    Service,
    /// The cost isn't the node's bound.
    Price,
    /// The record before isn't a `Point` or `Blind` of this node.
    Alone,
    /// The number doesn't part the arc's range in two.
    Part,
    /// A legal arc leads from a lower to a higher label.
    Rise,
    /// A label's street doesn't show that no tour keeps to the label.
    Label,
    /// The end doesn't agree with the records.
    End,
    /// The text ends before an end line.
    Missing,
    /// The text goes on after its end line.
    After,
}
