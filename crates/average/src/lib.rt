// src/util/average.rs: an exponential moving average, with the variance and its root.
#![tactic(auto)]

ghost use Rattle.std.specs.Prelude.{◌≡◌};
ghost use Rattle.average.specs.Average as Average;

#[derive(Clone, Copy)]
pub struct MovingAverage {
    pub smoothing_factor: f64,
    pub average: Option<f64>,
    pub variance: f64,
    pub std: f64,
}

impl MovingAverage {
    pub fn new(smoothing_factor: f64) -> Self
        ensures { result ≡ Average.new smoothing_factor }
    {
        Self {
            smoothing_factor,
            average: None,
            variance: 0.0,
            std: 0.0,
        }
    }

    #[tactic(auto, unfolding(crate::specs::Average::within_std))]
    pub fn within_std(self, value: f64, num_std: f64) -> bool
        ensures { result ≡ Average.within_std self value num_std }
    {
        let spread = self.std * num_std;
        self.average.is_some_and(|average| (average - spread <= value)
            & (value <= average + spread))
    }

    #[tactic(auto, unfolding(crate::specs::Average::upper_range))]
    pub fn upper_range(self, num_std: f64) -> Option<f64>
        ensures { result ≡ Average.upper_range self num_std }
    {
        if self.std == 0.0 {
            return None;
        }
        Some(self.average? + num_std * self.std)
    }

    // Not `self.upper_range(-num_std)`: that a rounded difference is the rounded sum with the opposite would be one more thing to know.
    #[tactic(auto, unfolding(crate::specs::Average::lower_range))]
    pub fn lower_range(self, num_std: f64) -> Option<f64>
        ensures { result ≡ Average.lower_range self num_std }
    {
        if self.std == 0.0 {
            return None;
        }
        Some(self.average? - num_std * self.std)
    }

    // The first value is the average and leaves the variance.
    #[tactic(auto, unfolding(crate::specs::Average::update))]
    pub fn update(self, value: f64) -> Self
        ensures { result ≡ Average.update self value }
    {
        match self.average {
            Some(average) => {
                let delta = value - average;
                let new_average = average + self.smoothing_factor * delta;
                let new_variance = (1.0 - self.smoothing_factor)
                    * (self.variance + self.smoothing_factor * (delta * delta));
                Self {
                    average: Some(new_average),
                    variance: new_variance,
                    std: sqrt::sqrt(new_variance),
                    ..self
                }
            }
            None => Self {
                average: Some(value),
                ..self
            },
        }
    }

    pub fn get(self) -> Option<f64>
        ensures { result ≡ self.average }
    {
        self.average
    }

    pub fn valid(self) -> bool
        ensures { result ≡ Average.valid self }
    {
        self.average.is_some()
    }

    pub fn reset(self) -> Self
        ensures { result ≡ Average.reset self }
    {
        Self::new(self.smoothing_factor)
    }
}
