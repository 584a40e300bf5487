//! When the pages are a legal tree.
use crate::finding::{Findings, Place};
use crate::key::{Entry, covers};
use crate::log::Log;
use crate::page::{Child, Node};
use crate::rules::{self, Rule};
use crate::{Damage, Key};
use std::alloc::Global;

/// The pages in use, and what is wrong with their tree.
#[derive(Drop)]
struct Tree<'a> {
    nodes: &'a [Node],
    log: &'a Log,
    found: &'a mut Findings,
}

/// The node of a page's number, from 1 on.
fn node(nodes: &[Node], page: u32) -> Option<&Node> {
    nodes.get((page as usize).checked_sub(1)?)
}

/// The chain of leaves from page 2 on, as far as it leads over leaves in use, none of them twice, and the page after
/// these; 0 if it ends.
fn chain(alloc: Global, nodes: &[Node]) -> Result<(Vec<u32>, u32), Damage> {
    let mut chain = Vec::new(alloc);
    let mut page = 2;
    for _ in nodes {
        match node(nodes, page) {
            Some(leaf) if leaf.level == 0 && !chain.contains(&page) => {
                chain.push(page)?;
                page = leaf.right;
            }
            _ => break,
        }
    }
    Ok((chain, page))
}

/// How often an entry is on a leaf.
fn times_on(leaf: &Node, entry: &Entry) -> usize {
    let mut count = 0_usize;
    for pair in leaf.pairs.iter() {
        if pair.entry == *entry {
            count = count.saturating_add(1);
        }
    }
    count
}

/// Whether a key covers every key of a node.
fn covers_all(key: &Key, node: &Node) -> bool {
    for pair in node.pairs.iter() {
        if !covers(key, &pair.entry.key) {
            return false;
        }
    }
    for child in node.children.iter() {
        if !covers(key, &child.key) {
            return false;
        }
    }
    true
}

/// How many entries name a page.
fn parents(nodes: &[Node], page: u32) -> usize {
    let mut count = 0_usize;
    for node in nodes {
        for child in node.children.iter() {
            if child.page == page {
                count = count.saturating_add(1);
            }
        }
    }
    count
}

/// How often an entry is on the leaves.
fn times(nodes: &[Node], entry: &Entry) -> usize {
    let mut count = 0_usize;
    for node in nodes {
        count = count.saturating_add(times_on(node, entry));
    }
    count
}

/// Whether an entry is on a leaf, or on one to the right of it.
fn is_placed(nodes: &[Node], chain: &[u32], entry: &Entry, leaf: u32) -> bool {
    let mut reached = false;
    for page in chain {
        reached = reached || *page == leaf;
        match node(nodes, *page) {
            Some(leaf) if reached && times_on(leaf, entry) > 0 => return true,
            _ => {}
        }
    }
    false
}

impl Tree<'_> {
    /// A page keeps this rule, or it doesn't.
    fn test(&mut self, holds: bool, page: u32, rule: Rule) -> Result<(), Damage> {
        if holds {
            return Ok(());
        }
        self.found.add_finding(Place::Page(page), rule)
    }

    /// So does what is in a slot of it.
    fn test_slot(
        &mut self,
        holds: bool,
        page: u32,
        what: &'static str,
        slot: usize,
        rule: Rule,
    ) -> Result<(), Damage> {
        if holds {
            return Ok(());
        }
        self.found.add_finding(Place::Slot(page, what, slot), rule)
    }

    /// The entries of an inner node name pages below the root.
    fn test_children(&mut self, page: u32, node: &Node) -> Result<(), Damage> {
        for (slot, child) in node.children.iter().enumerate() {
            let holds = child.page > 1 && child.page <= self.log.used;
            self.test_slot(holds, page, "child", slot, rules::CHILD_PAGE)?;
        }
        Ok(())
    }

    /// An entry of an inner node: its page is one level below, and its key covers that page's.
    fn test_child(
        &mut self,
        page: u32,
        slot: usize,
        level: u16,
        child: &Child,
    ) -> Result<(), Damage> {
        let Some(below) = node(self.nodes, child.page) else {
            return Ok(());
        };
        let is_below = below.level.checked_add(1) == Some(level);
        self.test_slot(is_below, page, "child", slot, rules::CHILD_LEVEL)?;
        self.test_slot(
            covers_all(&child.key, below),
            page,
            "bound",
            slot,
            rules::BOUND,
        )
    }

    /// A node by itself, and its children.
    fn test_node(&mut self, page: u32, node: &Node) -> Result<(), Damage> {
        let most = usize::from(self.log.parameters.most);
        let count = node.pairs.len().max(node.children.len());
        self.test(count <= most, page, rules::TOO_MANY)?;
        let has_child = node.level == 0 || !node.children.is_empty();
        self.test(has_child, page, rules::NO_CHILD)?;
        self.test(node.nsn <= self.log.counter, page, rules::SEQUENCE)?;
        for (slot, child) in node.children.iter().enumerate() {
            self.test_child(page, slot, node.level, child)?;
        }
        Ok(())
    }

    /// Each page but the root is the child of one entry.
    fn test_parents(&mut self) -> Result<(), Damage> {
        for page in 2..self.log.used.saturating_add(1) {
            let parents = parents(self.nodes, page);
            self.test(parents < 2, page, rules::NAMED_TWICE)?;
            self.test(parents > 0, page, rules::NOT_NAMED)?;
        }
        Ok(())
    }

    /// The chain has each leaf, and each once, and ends.
    fn test_chain(&mut self, chain: &[u32], behind: u32) -> Result<(), Damage> {
        self.test(behind == 0, behind, rules::CHAIN)?;
        let nodes = self.nodes;
        let mut page = 0_u32;
        for node in nodes {
            page = page.saturating_add(1);
            let holds = node.level > 0 || chain.contains(&page);
            self.test(holds, page, rules::OFF_CHAIN)?;
        }
        Ok(())
    }

    /// Tests that no entry is in two places. If one is, it names the page where the chain begins.
    fn test_once(&mut self) -> Result<(), Damage> {
        let nodes = self.nodes;
        for node in nodes {
            for pair in node.pairs.iter() {
                if times(nodes, &pair.entry) != 1 {
                    return self.test(false, 2, rules::TWICE);
                }
            }
        }
        Ok(())
    }

    /// What open transactions touched is on its remembered leaf, or to the right of it.
    fn test_places(&mut self, chain: &[u32]) -> Result<(), Damage> {
        let (nodes, log) = (self.nodes, self.log);
        for touch in log.touches.iter() {
            let leaf = log.last_leaf(&touch.entry).unwrap_or(touch.leaf);
            if log.is_open(touch) {
                let holds = is_placed(nodes, chain, &touch.entry, leaf);
                self.test(holds, leaf, rules::OUT_OF_PLACE)?;
            }
        }
        Ok(())
    }

    /// The rules of each node, and of its children beside it.
    fn test_nodes(&mut self) -> Result<(), Damage> {
        let nodes = self.nodes;
        let mut page = 0_u32;
        for node in nodes {
            page = page.saturating_add(1);
            self.test_node(page, node)?;
        }
        Ok(())
    }

    /// The numbers of all children.
    fn test_all_children(&mut self) -> Result<(), Damage> {
        let nodes = self.nodes;
        let mut page = 0_u32;
        for node in nodes {
            page = page.saturating_add(1);
            self.test_children(page, node)?;
        }
        Ok(())
    }

    /// All rules.
    fn test_all(&mut self, alloc: Global) -> Result<(), Damage> {
        self.test_all_children()?;
        let splits = self.log.counter.saturating_add(2);
        let is_enough = u64::from(self.log.used) >= splits;
        self.test(is_enough, 1, rules::SPLITS)?;
        let is_above = match node(self.nodes, 1) {
            Some(root) => root.level > 0,
            None => false,
        };
        self.test(is_above, 1, rules::ROOT_IS_LEAF)?;
        self.test_nodes()?;
        self.test_parents()?;
        let (chain, behind) = chain(alloc, self.nodes)?;
        self.test_chain(&chain, behind)?;
        self.test_once()?;
        self.test_places(&chain)
    }
}

/// Tests the pages in use as a tree.
pub(crate) fn test_tree(
    alloc: Global,
    nodes: &[Node],
    log: &Log,
    found: &mut Findings,
) -> Result<(), Damage> {
    let mut tree = Tree { nodes, log, found };
    tree.test_all(alloc)
}
