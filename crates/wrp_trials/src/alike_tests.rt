//! What no clause says: that the tree and the checker, whose code has nothing in common, refuse the
//! same record of a drawn list by the same rule.

use crate::draw::{Draw, drawn_town};
use crate::drawn_records::{drawn_record, tour_of};
use crate::lists::{NO_END, Verdict, by_check, end_of, judged, line_behind};
use std::alloc::{AllocError, Global};
use std::test::Fail;
use wrp_rules::{Record, Rule};
use wrp_street::{Step, Town};
use wrp_tree::Tree;

/// How many lists are drawn, of so many records at most.
const LISTS: u32 = 40;

const RECORDS: u32 = 30;

/// A list that is drawn, and its town.
#[derive(Drop)]
struct Drawing<'t> {
    town: &'t Town,
    tree: Tree<'t>,
    list: Vec<Record>,
}

/// Which rule a drawn record breaks, and whether the tree and the checker agree.
#[derive(Clone, Copy)]
struct Shown {
    rule: Option<Rule>,
    agree: bool,
}

impl<'t> Drawing<'t> {
    /// No record yet.
    fn new(alloc: Global, town: &'t Town) -> Result<Drawing<'t>, AllocError> {
        Ok(Drawing {
            town,
            tree: Tree::new(alloc, town)?,
            list: Vec::new(alloc),
        })
    }

    /// What the tree says of the list, where its last record breaks this rule or none.
    fn verdict(&self, rule: Option<Rule>) -> Verdict {
        let behind = line_behind(self.list.len());
        match (rule, end_of(&self.tree)) {
            (Some(rule), _) => Err((behind.saturating_sub(1), rule)),
            (None, Some(end)) => Ok(end),
            (None, None) => Err((behind, Rule::End)),
        }
    }

    /// Adds a record where it is valid, and compares what the tree and the checker say.
    fn go_on(&mut self, alloc: Global, item: Record) -> Result<Shown, AllocError> {
        let rule = judged(&mut self.tree, item.clone()?)?;
        self.list.push(item)?;
        let agree = self.is_alike(alloc, rule)?;
        if rule.is_some() {
            self.list.pop();
        }
        Ok(Shown { rule, agree })
    }

    /// Whether the checker says the same of the list.
    fn is_alike(&self, alloc: Global, rule: Option<Rule>) -> Result<bool, AllocError> {
        let own = self.verdict(rule);
        let other = by_check(alloc, self.town, &self.list, own.unwrap_or(NO_END))?;
        Ok(own == other)
    }

    /// Draws records, and says whether the tree and the checker agree at each. The rules that are
    /// broken are noted.
    fn run(
        &mut self,
        alloc: Global,
        draw: &mut Draw,
        steps: &[Step],
        rules: &mut Vec<Rule>,
    ) -> Result<bool, AllocError> {
        for _ in 0..RECORDS {
            let item = drawn_record(alloc, draw, &self.tree, steps)?;
            let shown = self.go_on(alloc, item)?;
            note(rules, shown.rule)?;
            if !shown.agree {
                return Ok(false);
            }
        }
        Ok(true)
    }
}

/// Notes a rule that is new.
fn note(rules: &mut Vec<Rule>, rule: Option<Rule>) -> Result<(), AllocError> {
    if let Some(rule) = rule {
        if !rules.iter().any(|other| *other == rule) {
            rules.push(rule)?;
        }
    }
    Ok(())
}

/// Draws a list of a town, of which some tour has these steps, and says whether the tree and the
/// checker agree.
fn are_alike(
    alloc: Global,
    draw: &mut Draw,
    town: &Town,
    steps: &[Step],
    rules: &mut Vec<Rule>,
) -> Result<bool, AllocError> {
    let mut drawing = Drawing::new(alloc, town)?;
    drawing.run(alloc, draw, steps, rules)
}

/// Draws a town and a list, and says whether the tree and the checker agree.
fn drawn_alike(alloc: Global, draw: &mut Draw, rules: &mut Vec<Rule>) -> Result<bool, Fail> {
    let junctions = draw.below(4).saturating_add(1);
    let streets = draw.below(5).saturating_add(1);
    let town = drawn_town(alloc, draw, junctions, streets)?;
    let steps = tour_of(alloc, &town)?;
    Ok(are_alike(alloc, draw, &town, steps.as_slice(), rules)?)
}

#[test]
fn drawn_lists_are_judged_alike(rt: HostRuntime) -> Result<(), Fail> {
    let mut draw = Draw::new(3);
    let mut rules = Vec::new(rt.alloc());
    for number in 0..LISTS {
        assert!(rt;
            drawn_alike(rt.alloc(), &mut draw, &mut rules)?,
            "list {number}"
        );
    }
    assert!(rt; rules.len() >= 16, "{rules:?}");
    Ok(())
}
