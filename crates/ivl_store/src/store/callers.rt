//! The condition of [`Store::post_all`], and the call that tests it.
ghost use Rattle.std.specs.Prelude.{◌≡◌, ◌↔◌, ℕ, ℤ, List, All, Err, IfOk, IsNone, IsSome, IsTrue, MatchOption, None, Some, length, ⊤};
ghost use Rattle.ivl_laws.specs.Families.{set_at};
ghost use Rattle.ivl_store.specs.Posts.{AnswersPosts, CutBy, IsLeftBy, IsPartlyPosted, OfConstraint, constraints_of, first_unknown_post as first_unknown_in_posts};
ghost use Rattle.ivl_store.specs.Solutions.{AreDistinct, LiesWithin, SupportedBy};

use super::{Post, Store, StoreFault};
use intervallum::width::Width;

/// Returns true exactly when each constraint among the posts has three different variables. Then
/// the posts may be passed to [`Store::post_all`]. Linear, does not allocate.
pub fn all_distinct<B: Width>(posts: &[Post<B>]) -> bool
    // True exactly when each constraint among the posts has three different variables.
    ensures { IsTrue result ↔ All AreDistinct (constraints_of posts.now) }
{
    for post in posts {
        if !is_distinct(post) {
            return false;
        }
    }
    true
}

/// Whether the post's constraint, if it has one, has three different variables.
fn is_distinct<B: Width>(post: &Post<B>) -> bool
    ensures { IsTrue result ↔ OfConstraint AreDistinct post.now }
{
    match post {
        Post::Restrict(_, _) => true,
        Post::Require(c) => c.distinct(),
    }
}

impl<B: Width> Store<B> {
    /// Posts all as [`Store::post_all`] does, without its condition: returns `None`, and leaves the
    /// store unchanged, if a constraint among them has a variable twice. Costs what `post_all` costs,
    /// and a pass over the posts.
    ///
    /// # Errors
    ///
    /// Those of [`Store::post_all`], and only if each constraint has three different variables.
    pub fn try_post_all(&mut self, posts: &[Post<B>]) -> Result<Option<Vec<bool>>, StoreFault>
        // `None`: some constraint has a variable twice, and the domains are unchanged.
        ensures none { IfOk result (λ o. IsNone o → ¬ (All AreDistinct (constraints_of posts.now)) × (self.new ≡ self.old)) }

        // Some: one reply for each post, true exactly when the greatest domains for the posts up to it have an empty
        // one. The domains are the greatest for all posts: of those within the old ones and the cuts, the greatest that
        // each constraint supports.
        ensures replies { IfOk result (λ o. MatchOption o ⊤ (λ replies. AnswersPosts posts.now self.old replies.items)) }
        ensures left { IfOk result (λ o. IsSome o → IsLeftBy posts.now (set_at self.old) (set_at self.new)) }

        // The fault names the first index, in list order, without a variable, exactly when there is one and each
        // constraint has three different variables. The domains are then unchanged.
        ensures unknown { (i : ℕ) → (result ≡ Err (StoreFault.Variable i)) ↔ (All AreDistinct (constraints_of posts.now) × (first_unknown_in_posts (length self.old) posts.now ≡ Some i)) }
        ensures unchanged { (i : ℕ) → result ≡ Err (StoreFault.Variable i) → self.new ≡ self.old }

        // Out of memory: each constraint has three different variables, and each index a variable. The domains are what
        // some first posts leave, or what the cut of one more leaves of that, and the narrowings made since.
        ensures memory { result ≡ Err StoreFault.Memory → All AreDistinct (constraints_of posts.now) × (first_unknown_in_posts (length self.old) posts.now ≡ None) }
        ensures partly { result ≡ Err StoreFault.Memory → IsPartlyPosted posts.now self.old self.new }

        // Whatever is returned, domains only lose members. Domains within the old ones and the cuts that each
        // constraint supports lie within the new ones.
        ensures kept_count { length self.new ≡ length self.old }
        ensures only_lost { LiesWithin (set_at self.new) (set_at self.old) }
        ensures families { (family : List (List (ℤ × ℤ))) → SupportedBy (constraints_of posts.now) (set_at family) → LiesWithin (set_at family) (CutBy posts.now (set_at self.old)) → LiesWithin (set_at family) (set_at self.new) }
    {
        if !all_distinct(posts) {
            return Ok(None);
        }
        Ok(Some(self.post_all(posts)?))
    }
}
