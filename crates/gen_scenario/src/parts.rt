//! What one general alone knows of a run.
ghost use Rattle.std.specs.Prelude.{◌≡◌, ◌<◌, option_map, IfOk, SomeIff};
ghost use Rattle.gen_scenario.specs.Scenario.{script_of};
ghost use Rattle.gen_scenario.specs.Part.{IsPart, CanFollow, part_of, followers_part};

use crate::signed::Scenario;
use crate::signer_trees::SignerTree;
use gen_net::Header;
use gen_script::{Script, ScriptLine};
use gen_types::{GeneralNo, OrderNo};
use std::alloc::{AllocError, Global};
use std::marker::Model;

/// What one general alone knows of a run before it begins: the header, its number, and its order if it is the
/// commander. If it has a script, it also knows the script's lines and the trees of the keys of all generals
/// with scripts.
///
/// A general without a script knows nobody's keys but those of its own ring, which isn't kept here. A
/// contract sees all of these as one record.
#[derive(Drop)]
pub struct Part {
    header: Header,
    me: GeneralNo,
    own: Option<OrderNo>,
    script: Option<Script>,
    trees: Vec<SignerTree>,
}

impl Model for Part {
    ghost use Rattle.std.specs.Prelude.{option_map};
    ghost use Rattle.gen_scenario.specs.Part.{Part, IsPart};

    ghost Value = { Part };

    ghost view = { λ p. record {
      header = p.header;
      me = p.me;
      own = p.own;
      script = option_map (λ script. script.lines) p.script;
      trees = p.trees.items;
    } };

    ghost invariant = { λ p. IsPart (record {
      header = p.header;
      me = p.me;
      own = p.own;
      script = option_map (λ script. script.lines) p.script;
      trees = p.trees.items;
    }) };
}

impl Part {
    /// Returns what a general without a script knows: the header, its number and, if it is the commander, its
    /// order. The result is None if and only if these can't belong together. So it is None if the number is
    /// none of the header's generals, or if a lieutenant has an order. It is also None if the commander has
    /// no order, or one that is none of the network's.
    pub fn follower(
        alloc: Global,
        header: Header,
        me: GeneralNo,
        own: Option<OrderNo>,
    ) -> Option<Part>
        ensures { SomeIff result (CanFollow header me own) (followers_part header me own) }
    {
        let net = header.net();
        let is_his = match own {
            None => me != GeneralNo::commander(),
            Some(order) => me == GeneralNo::commander() && order.get() < net.orders(),
        };
        let trees = Vec::new(alloc);
        if is_his && me.get() < net.generals() {
            Some(Part {
                header,
                me,
                own,
                script: None,
                trees,
            })
        } else {
            None
        }
    }

    /// Returns the run's header.
    pub fn header(&self) -> &Header
        ensures value { result.now ≡ self.now.header }
        ensures known { IsPart self.now }
    {
        &self.header
    }

    /// Returns the number of the general.
    pub fn me(&self) -> GeneralNo
        ensures { result ≡ self.now.me }
    {
        self.me
    }

    /// Returns the general's own order, which only the commander has.
    pub fn own(&self) -> Option<OrderNo>
        ensures { result ≡ self.now.own }
    {
        self.own
    }

    /// Returns the lines of the general's script, if it has one.
    pub fn lines(&self) -> Option<&[ScriptLine]>
        ensures { option_map (λ lines. lines.now) result ≡ self.now.script }
    {
        match &self.script {
            None => None,
            Some(script) => Some(script.lines()),
        }
    }

    /// Returns the trees of the keys that the general knows, each with the general that signs by it.
    pub fn trees(&self) -> &[SignerTree]
        ensures { result.now ≡ self.now.trees }
    {
        self.trees.as_slice()
    }
}

/// A copy is equal to its original. Copying fails only if memory is refused.
impl Clone for Part {
    ghost is_clone = { λ part copy. copy ≡ part };

    fn clone(&self) -> Result<Part, AllocError> {
        Ok(Part {
            header: self.header.clone()?,
            me: self.me,
            own: self.own,
            script: self.script.clone()?,
            trees: self.trees.clone()?,
        })
    }
}

/// Returns the script of a general, if it is in the list.
fn find_script(scripts: &[Script], general: GeneralNo) -> Option<&Script>
    ensures { option_map (λ script. script.now.lines) result ≡ script_of scripts.now general }
{
    let mut rest = scripts;
    'rest: while let Some((script, others)) = rest.split_first() {
        if script.general() == general {
            return Some(script);
        }
        rest = others;
    }
    None
}

impl Scenario {
    /// Returns what a general alone knows of the run. The number must be that of a general of the network.
    ///
    /// # Errors
    ///
    /// `AllocError` if memory is refused.
    pub fn part(&self, alloc: Global, general: GeneralNo) -> Result<Part, AllocError>
        requires { general < self.now.net.generals }
        ensures { IfOk result (λ part. part ≡ part_of self.now general) }
    {
        let header = self.header().clone()?;
        let _is_header = header.net();
        let own = (general == GeneralNo::commander()).then_some(self.order());
        match find_script(self.scripts(), general) {
            None => Ok(Part {
                header,
                me: general,
                own,
                script: None,
                trees: Vec::new(alloc),
            }),
            Some(script) => {
                let script = script.clone()?;
                let mut trees = Vec::new(alloc);
                'signers: for signer in self.scripts() {
                    let number = signer.general();
                    let tree = self.tree(number).clone()?;
                    trees.push(SignerTree {
                        general: number,
                        tree,
                    })?;
                }
                Ok(Part {
                    header,
                    me: general,
                    own,
                    script: Some(script),
                    trees,
                })
            }
        }
    }
}
