// The jobs one by one, and what is written when all are done.

ghost use Rattle.std.specs.Prelude.{◌≡◌, ℕ, ◌+◌, ◌*◌, ◌/◌, ◌%◌, ◌^◌, ◌<◌, ◌≤◌, length};
ghost use Rattle.slh_hash.specs.Lists.{joined};
ghost use Rattle.slh_hash.specs.Places.{place_of};
ghost use Rattle.slh_hash.specs.Sets.{IsSet};
ghost use Rattle.fors.specs.Fors.{fors_bytes, fors_key_from, md_bytes};
ghost use Rattle.wots_xmss.specs.Xmss.{xmss_bytes};
ghost use Rattle.wots_xmss.specs.Hypertree.{leaf_at, layer_signature, message_at, tree_at};
ghost use Rattle.sign_many.specs.Jobs.{AreDone, IsDone, IsLayerDone, Task, start_of};

use fors::{fors_bytes, fors_key_from_sig_with, fors_sign_with};
use slh_dsa::part;
use slh_hash::{Params, SeedHash};
use std::marker::Model;
use wots_xmss::{WOTS_BYTES, tree_path_with, wots_sign_with, xmss_bytes};

/// What all jobs of one signature are told.
#[derive(Drop)]
pub(crate) struct Work<'a> {
    pub(crate) params: Params,
    pub(crate) seed: &'a SeedHash,
    pub(crate) sk_seed: &'a [u8; 16],
    pub(crate) tree: u64,
    pub(crate) leaf: u32,
    pub(crate) md: &'a [u8],
}

impl<'a> Model for Work<'a> {
    ghost Value = { Task };

    ghost view = { λ w. record {
      params = w.params;
      place = place_of w.seed.now w.tree w.leaf;
      sk_seed = w.sk_seed.now;
      md = w.md.now;
    } };

    ghost invariant = { λ w. IsSet w.params × (w.leaf < 2 ^ w.params.tree_height) × (length w.md.now ≡ md_bytes w.params.a w.params.k) };
}

impl Work<'_> {
    /// Where the part of a job begins behind R.
    pub(crate) fn start_of(&self, job: u32) -> usize
        requires { job ≤ self.now.params.d + 1 }
        ensures { result ≡ start_of self.now.params job }
    {
        if job == 0 {
            0
        } else {
            fors_bytes(&self.params) + xmss_bytes(&self.params) * (job - 1) as usize
        }
    }

    // The tree of a layer (FIPS 205 Algorithm 12).
    fn tree_at(&self, layer: u32) -> u64
        requires { layer < self.now.params.d }
        ensures { result ≡ tree_at self.now.params.tree_height self.now.place.tree layer }
    {
        self.tree >> (self.params.tree_height * layer)
    }

    // Its leaf (FIPS 205 Algorithm 12).
    fn leaf_at(&self, layer: u32) -> u32
        requires { layer < self.now.params.d }
        ensures value { result ≡ leaf_at self.now.params.tree_height self.now.place.tree self.now.place.pair layer }
        ensures small { result < 2 ^ self.now.params.tree_height }
    {
        if layer == 0 {
            self.leaf
        } else {
            (self.tree_at(layer - 1) % (1 << self.params.tree_height)) as u32
        }
    }

    // Writes the path of a layer's leaf, and the root of its tree to where the one-time signature will begin.
    fn do_layer(&self, layer: u32, part: &mut [u8])
        requires inside { layer < self.now.params.d }
        requires room { length part.old ≡ xmss_bytes self.now.params.tree_height }
        ensures { IsLayerDone self.now layer part.new }
    {
        let (chains, path) = part.split_at_mut(WOTS_BYTES);
        let root = tree_path_with(
            &self.params,
            self.seed,
            self.sk_seed,
            layer,
            self.tree_at(layer),
            self.leaf_at(layer),
            path,
        );
        chains[..16].copy_from_slice(&root);
    }

    /// Does a job in its part.
    pub(crate) fn do_job(&self, job: u32, part: &mut [u8])
        requires inside { job ≤ self.now.params.d }
        requires room { start_of self.now.params job + length part.old ≡ start_of self.now.params (job + 1) }
        ensures { IsDone self.now job part.new }
    {
        if job == 0 {
            fors_sign_with(
                &self.params,
                self.seed,
                self.sk_seed,
                self.tree,
                self.leaf,
                self.md,
                part,
            );
        } else {
            self.do_layer(job - 1, part);
        }
    }

    /// The FORS key that a signature of the digest leads to.
    pub(crate) fn fors_key(&self, sig_fors: &[u8]) -> [u8; 16]
        requires { length sig_fors.now ≡ fors_bytes self.now.params.a self.now.params.k }
        ensures { result ≡ fors_key_from self.now.params.a self.now.params.k self.now.place self.now.md sig_fors.now }
    {
        fors_key_from_sig_with(
            &self.params,
            self.seed,
            self.tree,
            self.leaf,
            self.md,
            sig_fors,
        )
    }

    /// Writes the one-time signatures of so many layers, the lowest ones, over their places: from the top one down, since each takes the
    /// place of the root that the layer above has signed by then.
    pub(crate) fn sign_layers(&self, layers: u32, key: &[u8; 16], parts: &mut [u8])
        requires inside { layers ≤ self.now.params.d }
        requires done { AreDone self.now 1 layers parts.old }
        ensures { parts.new ≡ joined (layer_signature self.now.params.tree_height self.now.place self.now.sk_seed key.now) layers }
    {
        if layers == 0 {
            return;
        }
        let layer = layers - 1;
        let (below, part) = parts.split_at_mut(xmss_bytes(&self.params) * layer as usize);
        let (chains, _) = part.split_at_mut(WOTS_BYTES);
        let message = self.message_of(layer, key, below);
        wots_sign_with(
            self.seed,
            self.sk_seed,
            layer,
            self.tree_at(layer),
            self.leaf_at(layer),
            &message,
            chains,
        );
        self.sign_layers(layer, key, below);
    }

    // What a layer signs: the FORS key, or the root of the tree below, with which the part below begins.
    fn message_of(&self, layer: u32, key: &[u8; 16], below: &[u8]) -> [u8; 16]
        requires inside { layer < self.now.params.d }
        requires done { AreDone self.now 1 layer below.now }
        ensures { result ≡ message_at self.now.params.tree_height self.now.place self.now.sk_seed key.now layer }
    {
        if layer == 0 {
            return *key;
        }
        part(below, xmss_bytes(&self.params) * (layer - 1) as usize)
    }
}
