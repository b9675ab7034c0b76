// The settings: each hands the configuration back with one field set to what is given, so that they chain.
ghost use Rattle.std.specs.Prelude.{◌≡◌};
ghost use Rattle.plane.specs.Settings.{with_offset, with_size, with_step, with_dst_offset, with_dst_stride, with_perm, with_pre, with_post, with_fill};

use crate::Config;

impl Config {
    // The first coordinate taken, by source dimension.
    pub fn with_offset(self, offset: [u32; 4]) -> Config
        ensures { result ≡ with_offset self offset }
    {
        Config { offset, ..self }
    }

    // How much is taken from there, by source dimension; 0 for all that is left.
    pub fn with_size(self, size: [u32; 4]) -> Config
        ensures { result ≡ with_size self size }
    {
        Config { size, ..self }
    }

    // One in how many is kept, by source dimension.
    pub fn with_step(self, step: [u32; 4]) -> Config
        ensures { result ≡ with_step self step }
    {
        Config { step, ..self }
    }

    // The coordinate to start at, by destination dimension.
    pub fn with_dst_offset(self, dst_offset: [u32; 4]) -> Config
        ensures { result ≡ with_dst_offset self dst_offset }
    {
        Config { dst_offset, ..self }
    }

    // The distance in elements, by destination dimension; 0 for the inner product.
    pub fn with_dst_stride(self, dst_stride: [u32; 4]) -> Config
        ensures { result ≡ with_dst_stride self dst_stride }
    {
        Config { dst_stride, ..self }
    }

    // The source dimension, by destination dimension.
    pub fn with_perm(self, perm: [u8; 4]) -> Config
        ensures { result ≡ with_perm self perm }
    {
        Config { perm, ..self }
    }

    // Padding before, by source dimension.
    pub fn with_pre(self, pre: [u8; 4]) -> Config
        ensures { result ≡ with_pre self pre }
    {
        Config { pre, ..self }
    }

    // Padding after, by source dimension.
    pub fn with_post(self, post: [u8; 4]) -> Config
        ensures { result ≡ with_post self post }
    {
        Config { post, ..self }
    }

    // What a padded element holds: the low bytes, as many as the element size, the lowest first.
    pub fn with_fill(self, fill: u32) -> Config
        ensures { result ≡ with_fill self fill }
    {
        Config { fill, ..self }
    }
}
