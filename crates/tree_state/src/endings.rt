//! What the end of a ticket changes.
ghost use Rattle.std.specs.Prelude.{◌≡◌, ◌+◌, ◌-◌, ◌<◌, ◌≤◌, ◌^◌, true, false, Some, ◌++◌};
ghost use Rattle.std.specs.Prelude.{length, map, slice_get, slice_set};
ghost use Rattle.tree_definitions.specs.cert_step.ProofProblem.{problem_of};
ghost use Rattle.tree_definitions.specs.cert_step.ProofStep.{step_of};
ghost use Rattle.tree_state.specs.declared.goal_state.GoalState.{GoalState};
ghost use Rattle.tree_state.specs.Seen.{event_of, entry_of, decided_of};
ghost use Rattle.tree_definitions.specs.States.{TreeNode, new_node};
ghost use Rattle.tree_definitions.specs.Events.{without};
ghost use Rattle.tree_state.specs.Parts.{HasTicket, all_failed, lost_if, opened, winner_after};
ghost use Rattle.tree_state.specs.Parts.{ended_parts, failed_parts, aborted_parts, decided_parts};

use crate::board::Board;
use crate::entry::{Entry, Event};
use crate::goal_lists::{lose, recount};
use crate::node::Decision;
use crate::node_lists::{append_nodes, decide_node, has_failed, set_mark};
use tree_definitions::{Failure, Mark, Problem, Step, Ticket};

impl Board {
    /// The ticket ends with this event, and its strategy has this mark.
    pub fn end(&mut self, ticket: u64, event: Event, mark: Mark)
        requires has { HasTicket self.old ticket }
        requires room { 0 < self.old.room }
        requires running { 0 < self.old.running }
        ensures { (h : HasTicket self.old ticket) → self.new
            ≡ ended_parts self.old ticket h.ticket h.node (event_of event) mark }
    {
        let (t, entry) = end_ticket(&mut self.tickets, ticket, event);
        set_mark(&mut self.nodes, t.node, t.place, mark);
        self.running -= 1;
        self.history.push_reserved(entry);
    }

    /// The ticket ends with this failure of its strategy. The node's goal is lost where that was the
    /// node's last strategy.
    pub fn fail(&mut self, ticket: u64, failure: Failure)
        requires has { HasTicket self.old ticket }
        requires room { 0 < self.old.room }
        requires running { 0 < self.old.running }
        ensures { (h : HasTicket self.old ticket)
            → self.new ≡ failed_parts self.old ticket h.ticket h.node failure }
    {
        let node = self.tickets[ticket as usize].node;
        self.end(ticket, Event::Failed(failure), Mark::Failed(failure));
        self.note_stuck(node);
    }

    // The goal of this node is lost, if all strategies of the node have failed.
    fn note_stuck(&mut self, n: usize)
        requires { n < length self.old.state.nodes }
        ensures { (node : TreeNode) → slice_get self.old.state.nodes n ≡ Some node
            → self.new ≡ record self.old {
              goals = lost_if (all_failed node.marks) self.old.goals node.goal;
            } }
    {
        if has_failed(&self.nodes[n]) {
            let goal = self.nodes[n].goal;
            lose(&mut self.goals, goal);
        }
    }

    /// The ticket ends, and where no verdict stands the tree is aborted.
    pub fn abort(&mut self, ticket: u64)
        requires has { HasTicket self.old ticket }
        requires room { 0 < self.old.room }
        requires running { 0 < self.old.running }
        ensures { (h : HasTicket self.old ticket)
            → self.new ≡ aborted_parts self.old ticket h.ticket h.node }
    {
        let aborts = !self.has_verdict();
        self.end(ticket, Event::Aborted, Mark::Idle);
        if aborts {
            self.is_aborted = true;
        }
    }

    /// The ticket ends with a step that decides its node, and the problems that are left are the next
    /// nodes. Where no node of the goal is open then, the goal is won.
    pub fn decide(&mut self, ticket: u64, step: Step, left: Vec<Problem>)
        requires has { HasTicket self.old ticket }
        requires room { 0 < self.old.room }
        requires running { 0 < self.old.running }
        requires node_room { length left.items ≤ self.old.node_room }
        requires open_nodes { (h : HasTicket self.old ticket) (g : GoalState)
            → slice_get self.old.goals h.node.goal ≡ Some g
            → g.open_nodes ≤ length self.old.state.nodes }
        ensures parts { (h : HasTicket self.old ticket) → self.new ≡ record
            (decided_parts self.old ticket h.ticket h.node (step_of step)
            (map problem_of left.items)) { node_room = self.new.node_room } }
    {
        let entry = self.history_len();
        let first = self.nodes_len();
        let count = left.len();
        let (n, goal) = self.node_of_ticket(ticket);
        self.end(ticket, Event::Found(step), Mark::Idle);
        self.set_decision(
            n,
            Decision {
                entry,
                first,
                count,
            },
        );
        self.append(goal, left);
        self.count(goal, count);
    }

    // Node number n is decided.
    fn set_decision(&mut self, n: usize, decision: Decision)
        requires node { n < length self.old.state.nodes }
        requires entry { decision.entry < length self.old.history }
        ensures { (node : TreeNode) → slice_get self.old.state.nodes n ≡ Some node
            → self.new ≡ record self.old {
              state = record self.old.state {
                nodes = slice_set self.old.state.nodes n
                    (record node { decision = Some (decided_of self.old.history decision) });
              };
            } }
    {
        decide_node(&mut self.nodes, n, decision);
    }

    // The problems become the next nodes, of this goal.
    fn append(&mut self, goal: u32, problems: Vec<Problem>)
        requires { length problems.items ≤ self.old.node_room }
        ensures parts { self.new ≡ record self.old {
          state = record self.old.state {
            nodes = self.old.state.nodes
                ++ map (new_node goal) (map problem_of problems.items);
          };
          node_room = self.new.node_room;
        } }
        ensures few { length self.new.state.nodes < 2 ^ 63 }
    {
        append_nodes(&mut self.nodes, goal, problems);
    }

    // A node of the goal was decided and so many were made.
    fn count(&mut self, goal: u32, count: usize)
        requires { (g : GoalState) → slice_get self.old.goals goal ≡ Some g
            → g.open_nodes + count < 2 ^ 64 }
        ensures { self.new ≡ record self.old {
          goals = opened self.old.goals goal count;
          state = record self.old.state {
            winner = winner_after (opened self.old.goals goal count) goal
                self.old.state.winner;
          };
        } }
    {
        if recount(&mut self.goals, goal, count) {
            self.winner = Some(goal);
        }
    }

    fn nodes_len(&self) -> usize
        ensures { result ≡ length self.now.state.nodes }
    {
        self.nodes.len()
    }

    // The number of the ticket's node, and its goal.
    fn node_of_ticket(&self, ticket: u64) -> (usize, u32)
        requires { HasTicket self.now ticket }
        ensures { (h : HasTicket self.now ticket)
            → (result.0 ≡ h.ticket.node) × (result.1 ≡ h.node.goal) }
    {
        let n = self.tickets[ticket as usize].node;
        (n, self.nodes[n].goal)
    }
}

// Ends the ticket. The ticket as it was, and the entry that says so.
fn end_ticket(tickets: &mut Vec<Ticket>, ticket: u64, event: Event) -> (Ticket, Entry)
    requires { ticket < length tickets.old.items }
    ensures { (t : Ticket) → slice_get tickets.old.items ticket ≡ Some t
        → (tickets.new.items ≡ without tickets.old.items ticket t) × (result.0 ≡ t)
        × (entry_of result.1 ≡ record { seat = t.seat; ticket = ticket; event = event_of event }) }
{
    let t = tickets[ticket as usize];
    tickets[ticket as usize].is_running = false;
    let entry = Entry {
        seat: t.seat,
        ticket,
        event,
    };
    (t, entry)
}
