//! How far to the right things stand in a picture, in pixels from the left.
ghost use Rattle.std.specs.Prelude.{◌≡◌, ◌<◌, ◌+◌, ◌^◌};

use crate::rows::legend_row;

/// How far from the left edge of a picture its lines and words begin.
pub const MARGIN: u32 = 16;

/// The size of a picture: the numbers of its generals, its orders and its rounds.
#[derive(Clone, Copy, Debug)]
pub struct Grid {
    /// How many generals there are.
    pub generals: u8,
    /// How many orders there are.
    pub orders: u8,
    /// How many rounds there are.
    pub rounds: u8,
}

impl Grid {
    ghost use Rattle.gen_draw.specs.Grid.{column_of, end_of, half_reach, height_of, lane_of, middle_at, width_of};

    /// Returns the distance to the right from a message's beginning to its middle.
    #[tactic(auto, unfolding(crate::specs::Grid::half_reach))]
    pub fn half_reach(self) -> u32
        ensures value { result ≡ half_reach self }
        ensures small { result < 2 ^ 12 }
    {
        12 + 6 * u32::from(self.generals)
    }

    /// Returns where a round's column begins.
    #[tactic(auto, unfolding(crate::specs::Grid::column_of, crate::specs::Grid::round_width))]
    pub fn column(self, round: u16) -> u32
        ensures value { result ≡ column_of self round }
        ensures small { result < 2 ^ 30 + 16 }
    {
        let width = 24 + 12 * u32::from(self.orders) + 2 * self.half_reach();
        MARGIN + width * u32::from(round)
    }

    /// Returns where the lines of generals end.
    pub fn end(self) -> u32
        ensures value { result ≡ end_of self }
        ensures small { result < 2 ^ 30 + 16 }
    {
        self.column(u16::from(self.rounds) + 1)
    }

    /// Returns where the messages of an order begin in a round's column.
    #[tactic(auto, unfolding(crate::specs::Grid::lane_of))]
    pub fn lane(self, round: u16, order: u8) -> u32
        ensures value { result ≡ lane_of self round order }
        ensures small { result < 2 ^ 30 + 2 ^ 12 }
    {
        self.column(round) + 8 + 12 * u32::from(order)
    }

    /// Returns where the messages of an order in a round have their middle.
    pub fn middle(self, round: u16, order: u8) -> u32
        ensures value { result ≡ middle_at self round order }
        ensures small { result < 2 ^ 31 }
    {
        self.lane(round, order) + self.half_reach()
    }

    /// Returns the width of the picture.
    #[tactic(auto, unfolding(crate::specs::Grid::width_of))]
    pub fn width(self) -> u32
        ensures { result ≡ width_of self }
    {
        self.end() + 260
    }

    /// Returns the height of the picture.
    #[tactic(auto, unfolding(crate::specs::Grid::height_of))]
    pub fn height(self) -> u32
        ensures value { result ≡ height_of self }
        ensures small { result < 2 ^ 15 }
    {
        legend_row(self.generals, self.orders) + 60
    }
}
